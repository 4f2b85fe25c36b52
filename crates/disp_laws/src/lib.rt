//! What follows from the definitions of `disp_model`, each law the contract of a function without a
//! body, which every crate may cite: branching loses no valid plan, walks and bounds hold in every
//! valid plan below a node, a tree's yes is true, fixings only tighten, and one choice or none is
//! picked at each node that is not dead.
#![tactic(auto)]

mod laws;

pub use laws::{
    allowed_routes_are_listed, arcs_hold, bound_holds, branching_covers, costs_grow,
    earliest_plans_are_one, earliest_plans_exist, fixings_tighten, followed_is_not_dead,
    forced_are_run, horizon_bounds_walks, leaves_are_decided, leaves_stay_good, longest_arcs_exist,
    longest_walks_exist, open_choices_are_free, operations_are_numbered, picked_is_open,
    replies_are_one, runs_are_allowed, shares_hold, something_is_picked, train_arcs_compose,
    trains_have_ends, trees_say_yes, unpicked_costs_bound, walks_hold,
};
