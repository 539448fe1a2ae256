// Records: what a report's body says.
//
// `kind` and `fault` are what every record has; `position` reads a position; `survey` reads the head of a
// survey and hands out its satellites one by one. What is handed out is a part of the body, never a copy;
// numbers of several bytes stand high byte first, and a DOUBLE is handed out as its 64 bits.
#![tactic(auto)]

pub mod fault;
pub mod kind;
mod numbers;
pub mod position;
pub mod survey;
