//! Tests of the routes, arcs, graph, costs and leaves of a node, and of what is chosen there, at
//! the worked problems. They stand in a crate of their own, since a crate with tests is proved
//! twice. This crate has nothing but tests.
#![tactic(auto)]

#[cfg(test)]
mod tests;
