//! The windows of an instance: its steps cut into pieces of one width, and its arcs with them.
//!
//! The rules are "Windows of an instance" and "Current window" in docs/DEFINITIONS.md. `window_instance` makes any one
//! window, and `Windows` goes through them in order with the numbers of the arcs that meet each.
#![tactic(auto)]

mod parts;
mod starts;
mod windows;

pub use parts::window_instance;
pub use windows::Windows;
