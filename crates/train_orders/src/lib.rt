//! The operations of a train in an order in which each stands behind all of its successors.
//!
//! `order_of` gives such an order of all operations: the exit is the first, the entry the last, and
//! each operation stands in it once. So what holds of an operation by what holds of its successors
//! is found in one pass along the order. It takes time linear in the operations and their
//! successors; it fails for memory alone.
#![tactic(auto)]

mod order;

pub use order::order_of;
