// Fixes, ranked by their PDOP, and the board of the 32 best.
//
// `double` has the rank key and the thousandths of a DOUBLE; a `Fix` is what a position leaves; a
// `FixBoard` is at every moment in rank order.
#![tactic(auto)]

mod board;
pub mod double;
mod fix;

pub use board::FixBoard;
pub use fix::Fix;
