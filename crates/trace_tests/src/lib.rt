//! Tests of numbers and of the crates that read traces: sources, lines, records, requests and their scores.
//!
//! The name of each file begins with the crate that it tests.
//!
//! They stand apart from those crates, since a crate with tests is proved twice, and apart from `reading_tests`, so that
//! the two are proved side by side.
//!
//! What a large value does at its end is proved once, in `drop` at its type: left to the end of a scope, it would be
//! proved anew in each function that owns one.
#![tactic(auto)]

#[cfg(test)]
mod bound_base_numbers;
#[cfg(test)]
mod bound_io_lines;
#[cfg(test)]
mod bound_io_pieces;
#[cfg(test)]
mod bound_io_sources;
#[cfg(test)]
mod cache_rules_scores;
#[cfg(test)]
mod cache_rules_traces;
#[cfg(test)]
mod trace_any_loads;
#[cfg(test)]
mod trace_any_marks;
#[cfg(test)]
mod trace_any_requests;
#[cfg(test)]
mod trace_any_stale;
#[cfg(test)]
mod trace_arc_lines;
#[cfg(test)]
mod trace_lines_words;
#[cfg(test)]
mod trace_msr_lines;
#[cfg(test)]
mod trace_oracle_records;
#[cfg(test)]
mod trace_webcache_lines;
