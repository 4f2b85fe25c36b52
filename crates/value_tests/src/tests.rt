// Lists, texts and numbers, copies of plans and trees, and claims on JSON.
mod claims;
mod copies;
mod lists;
mod numbers;
