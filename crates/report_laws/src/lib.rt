//! A printed report has one reading: each law is the contract of a function that does nothing.
//!
//! The text of bounds, of a check, of a refinement, of a demo and of a sweep determines the numbers and words that it was printed
//! from. Certificates have the same law, `one_reading` of `cache_model`.
#![tactic(auto)]

mod laws;

pub use laws::{
    bounds_have_one_reading, demos_have_one_reading, refinements_have_one_reading,
    sweeps_have_one_reading, verdicts_have_one_reading,
};
