//! Tests of whole runs that read a certificate or claimed hits beside the trace, and of what is written beside it: checks,
//! refinements, upgrades, judgements, warm-ups, and requests that don't count or are stale. The expected texts and numbers were made
//! by hand.
//!
//! They stand apart from the program, since a crate with tests is proved twice, and apart from `run_tests`, so that the
//! two are proved side by side.
#![tactic(auto)]

#[cfg(test)]
mod checks;
#[cfg(test)]
mod judgements;
#[cfg(test)]
mod marks;
#[cfg(test)]
mod refinements;
#[cfg(test)]
mod stale;
#[cfg(test)]
mod upgrades;
#[cfg(test)]
mod warmups;
