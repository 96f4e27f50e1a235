//! A policy of any of the rules.
#![tactic(auto)]

mod letting_go;
mod policy;

pub use policy::AnyPolicy;
