//! Tests of sinks and of the crates that read and write certificates, of the demo's trace and of the texts for people.
//!
//! The name of each file begins with the crate that it tests.
//!
//! They stand apart from those crates, since a crate with tests is proved twice, and apart from `trace_tests`, so that
//! the two are proved side by side.
//!
//! What a large value does at its end is proved once, in `drop` at its type: left to the end of a scope, it would be
//! proved anew in each function that owns one.
#![tactic(auto)]

#[cfg(test)]
mod bound_io_places;
#[cfg(test)]
mod bound_io_sinks;
#[cfg(test)]
mod bound_report_texts;
#[cfg(test)]
mod cert_checker_invalid;
#[cfg(test)]
mod cert_checker_marks;
#[cfg(test)]
mod cert_checker_rules;
#[cfg(test)]
mod cert_checker_steps;
#[cfg(test)]
mod cert_format_certificates;
#[cfg(test)]
mod cert_format_versions;
#[cfg(test)]
mod demo_trace_lines;
