// Worked examples of the dispatcher's definitions. Each function is empty, and its contract states
// facts of the definitions at concrete trains: which plans are valid and what they cost, what a
// fixing is answered, which routes are left, what a node is bounded by, which trees are accepted,
// what is picked and which histories are legal. A definition that says something else fails the
// proof of its example. The first two trains are A and B; A0 is A's first operation, A1 its second.
#![tactic(auto)]

mod bounds;
mod choices;
mod dead_ends;
mod histories;
mod picked;
mod plans;
mod problems;
mod replies;
mod routes;
mod shares;
mod trees;

pub use bounds::{
    a_release_time_adds_to_the_wait, an_order_adds_the_wait, undecided_trains_are_bounded_alone,
};
pub use choices::operations_that_touch_are_open;
pub use dead_ends::{a_cycle_may_have_the_length_zero, a_fixed_start_can_be_too_early};
pub use histories::{
    a_plan_is_judged_by_the_newest_edition, a_tree_goes_on_over_editions,
    an_edition_is_not_stopped_early, an_edition_is_settled_by_its_tree, an_edition_is_settled_once,
    an_edition_is_stopped_with_its_bound,
};
pub use picked::the_first_clash_is_picked;
pub use plans::{
    a_later_listing_at_the_same_time_is_too_late, a_release_time_keeps_trains_apart,
    a_withdrawn_fixing_is_not_met, an_earliest_time_is_met_later_too,
    an_operation_is_run_or_skipped, resources_are_not_swapped_at_once, the_first_train_first,
    the_second_train_first,
};
pub use problems::the_examples_are_problems;
pub use replies::{
    a_fixing_is_taken_back_once, a_fixing_names_what_is_there, a_start_is_fixed_once,
    a_start_is_within_its_window, the_greatest_earliest_time_counts,
};
pub use routes::{
    a_choice_leaves_one_route, a_decision_forces_its_branch, a_fork_forces_no_branch,
    a_run_or_skip_leaves_one_route,
};
pub use shares::{a_listed_walk_counts_in_a_share, a_share_is_that_of_the_cheapest_route};
pub use trees::{
    a_component_counts_once, a_late_walk_closes_a_leaf, a_tree_shows_the_least_of_its_leaves,
};
