mod changes;
mod plans;
mod trees;
