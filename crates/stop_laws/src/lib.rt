//! What a stop of a legal history says of plans. The tree that a history grew covers: each plan
//! that is valid follows the decisions above some leaf of it. So the bound of a stop is one of
//! every plan that is valid for the edition that is stopped. Each law is the contract of a function
//! without a body.
#![tactic(auto)]

pub mod laws;
