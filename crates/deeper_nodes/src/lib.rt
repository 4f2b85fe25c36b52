//! How a node compares with one that has the same decisions and more at the end, each law the
//! contract of a function without a body: fewer routes are allowed and more is forced there, leaves
//! that hold still hold, a dead node stays dead, and bounds do not fall.
#![tactic(auto)]

pub mod laws;
