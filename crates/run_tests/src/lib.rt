//! Tests of whole runs that read a trace alone: bounds, replays, curves, sweeps and demos, the words of the command line, and
//! devices of which a call fails. The expected texts and numbers were made by hand.
//!
//! They stand apart from the program, since a crate with tests is proved twice, and apart from `check_tests`, so that
//! the two are proved side by side.
#![tactic(auto)]

#[cfg(test)]
mod advice;
#[cfg(test)]
mod bounds;
#[cfg(test)]
mod capacities;
#[cfg(test)]
mod command_line;
#[cfg(test)]
mod curves;
#[cfg(test)]
mod demos;
#[cfg(test)]
mod faults;
#[cfg(test)]
mod flags;
#[cfg(test)]
mod flow;
#[cfg(test)]
mod large;
#[cfg(test)]
mod modes;
#[cfg(test)]
mod records;
#[cfg(test)]
mod replays;
#[cfg(test)]
mod stale;
#[cfg(test)]
mod sweeps;
#[cfg(test)]
mod traces;
#[cfg(test)]
mod usage;
#[cfg(test)]
mod words;
#[cfg(test)]
mod written;
