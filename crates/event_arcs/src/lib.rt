//! The arcs between the operations that a train must run, listed for a search over numbered nodes.
//!
//! Node k is the k-th operation of the problem, trains in order. A list of arcs may leave out what
//! others span, as long as it leads between the same operations over at least the same lengths:
//! then it has a cycle exactly where the arcs have one, and else the same longest walks.
#![tactic(auto)]

mod chains;
mod laws;
mod list;
mod orders;
mod owns;
mod placed;

pub use chains::{add_chain, add_chain_anew};
pub use laws::{
    a_list_stands_by_its_parts, an_operation_goes_between, an_order_extends, cycles_are_shared,
    decisions_tighten, longest_are_shared, own_matters_suffice, spanning_lists_are_short,
    unordered_nodes_have_no_cycle, walks_are_carried_over, walks_stay_short,
};
pub use list::{NodeArcs, arcs, listed};
pub use orders::add_order;
pub use owns::{Own, owns_of, train_of_decision};
pub use placed::{Placed, Placing, placing_of};
