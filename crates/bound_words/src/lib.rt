//! The words of the command line: what they ask for, or the first that is refused.
//!
//! The rules are under "A run" in docs/DEFINITIONS.md. A run takes the settings of a plan, and advice asks which
//! operands a command has.
#![tactic(auto)]

mod capacities;
mod commands;
mod given;
mod kinds;
mod making;
mod named;
mod paths;
mod plans;
mod policies;
mod values;
mod words;

pub use capacities::{CapacityList, MOST_CAPACITIES};
pub use commands::{Command, command_named};
pub use given::format_given;
pub use kinds::{Kind, Values, is_operand, kind_of};
pub use named::{has_equals, name_of, value_given, value_of};
pub use paths::{Paths, paths_of};
pub use plans::{
    BoundSettings, DrawSettings, JudgeSettings, Plan, ReplaySettings, Settings, SweepSettings,
    settings_of,
};
pub use policies::PolicyList;
pub use values::{MOST_CAPACITY, MOST_DENOMINATOR};
pub use words::{WordFault, command_asked, operands_of, plan_of};
