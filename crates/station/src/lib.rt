// The board of a whole capture in the caller's memory, in one call: what a program in another language asks
// for. The crate `station_c` exports the two functions over a capture to C; `station_board_of_line` is the
// same over any line.
#![tactic(auto)]

mod board;

pub use board::{StationFix, station_board, station_board_ahead, station_board_of_line};
