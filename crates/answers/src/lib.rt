// The answer of a pull as a line of text.
//
// An `AnswerLine` prints the number of bytes taken so far and then
//
//     idle HELD
//     signal BYTE
//     packet STATUS TYPE LENGTH DATA
//     page TYPE NUMBER TOTAL
//     report TYPE KEY LENGTH READING BODY
//     refused NUMBER/LAYER/PLACE
//
// BYTE, STATUS and TYPE are two hex digits, the other numbers decimal. READING is 0, or the refusal's
// NUMBER/LAYER/PLACE. DATA and BODY are the bytes that the pull wrote, in hex, `-` for none. `log` has the
// lines of a whole capture.
#![tactic(auto)]

mod answer_line;
mod capture_log;
mod hex;

pub use answer_line::{AnswerLine, written};
pub use capture_log::log;
pub use hex::Hex;
