//! Tests of the crates that make bounds, over small traces and instances.
//!
//! They stand apart from those crates, since a crate with tests is proved twice.
//!
//! What a large value does at its end is proved once, in `drop` at its type: left to the end of a scope, it would be
//! proved anew in each function that owns one.
#![tactic(auto)]

#[cfg(test)]
mod area_sums_bounds;
#[cfg(test)]
mod constant_price_least;
#[cfg(test)]
mod flow_network_pushes;
#[cfg(test)]
mod flow_parts_heap;
#[cfg(test)]
mod flow_solver_instances;
#[cfg(test)]
mod flow_sparse_instances;
#[cfg(test)]
mod flow_uniform_instances;
#[cfg(test)]
mod flow_windows_parts;
#[cfg(test)]
mod helpers;
#[cfg(test)]
mod interval_maker_intervals;
#[cfg(test)]
mod load_tree_loads;
#[cfg(test)]
mod price_refine_prices;
#[cfg(test)]
mod relaxation_marks;
#[cfg(test)]
mod relaxation_values;
#[cfg(test)]
mod schedule_round_keeps;
#[cfg(test)]
mod sweep_bounds_traces;
#[cfg(test)]
mod ttl_walk_worths;
#[cfg(test)]
mod window_bounds_solutions;
