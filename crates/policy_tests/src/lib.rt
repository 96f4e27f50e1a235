//! Tests of replays over small traces: of policy_model, replay_core, replay_fresh, replay_ttl, replay_recency, replay_rank,
//! replay_queues, replay_tinylfu, belady_laws, stack_curve, byte_curve and hit_judge. They stand apart, since a crate with tests is proved twice.
#![tactic(auto)]

#[cfg(test)]
mod all_contents;
#[cfg(test)]
mod curves;
#[cfg(test)]
mod helpers;
#[cfg(test)]
mod hit_judge_policies;
#[cfg(test)]
mod replay_core_counting;
#[cfg(test)]
mod replay_core_idle;
#[cfg(test)]
mod replay_fresh_rows;
#[cfg(test)]
mod replay_rank_gdsf98;
#[cfg(test)]
mod replay_tinylfu_rows;
#[cfg(test)]
mod replay_ttl_rows;
#[cfg(test)]
mod rows;
#[cfg(test)]
mod simulations;
#[cfg(test)]
mod stack_curve_points;
#[cfg(test)]
mod today;
