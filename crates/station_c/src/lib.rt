// The board of `station` for programs in other languages: functions that C can call, each over a capture
// in the caller's memory. `bench/station.h` is their C header.
//
// A function here asks of its caller what C cannot say: every pointer is aligned and not null, also
// where the length beside it is 0, and points to as many elements as that length says, all of them
// written before; and no memory that is written is reached by another pointer.
#![tactic(auto)]

ghost use Rattle.station.specs.Boards.{BestRows};

use station::StationFix;

// Pulls a new link to idle over the capture and puts the best fixes, the best one first, into the rows, as
// many as there are and as fit. Answers how many; the other rows are as before.
#[unsafe(no_mangle)]
pub extern "C" fn station_board(capture: &[u8], rows: &mut [StationFix]) -> usize
    ensures { BestRows capture.now rows.old result rows.new }
{
    station::station_board(capture, rows)
}

// The same through the read-ahead. C cannot call a generic function, so each line has a function here.
#[unsafe(no_mangle)]
pub extern "C" fn station_board_ahead(capture: &[u8], rows: &mut [StationFix]) -> usize
    ensures { BestRows capture.now rows.old result rows.new }
{
    station::station_board_ahead(capture, rows)
}
