// The link: it pulls bytes off a line, finds the packets, joins the pages, reads the reports and keeps
// the board of the best fixes.
//
// A `Link` is over any two page schemes, and a pull over any line. `Answer` is what a pull answers,
// `LinkFault` what is refused. The rules of a pull are the definitions of the crate `protocol`.
#![tactic(auto)]

mod answer;
mod fault;
mod link;
mod route;

pub use answer::Answer;
pub use fault::LinkFault;
pub use link::Link;
