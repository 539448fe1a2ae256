// A report written as packets, its pages one behind the other, for every page scheme.
#![tactic(auto)]

mod write;

pub use write::{pages_hold_the_report, write_report};
