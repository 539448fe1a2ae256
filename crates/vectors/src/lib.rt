// What the comparison with vectors is made of: the words of a line, bytes as hex text, refusals as text, the page
// schemes by their packet types, and the tally of a group of cases.
#![tactic(auto)]

pub mod hex_text;
pub mod refusals;
pub mod schemes;
pub mod tally;
pub mod words;
