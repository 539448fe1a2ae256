// The board of a whole capture.
ghost use Rattle.std.specs.Prelude.{◌≡◌, [], min, length};
ghost use Rattle.link.specs.Views.{state_of};
ghost use Rattle.station.specs.Boards.{BestRows, row_of, rows_of};

use fixes::Fix;
use line::read_ahead::ReadAhead;
use line::{Capture, Line};
use link::Link;
use paging::app_file::AppFile;
use paging::raw_data::RawData;

// A fix: the key of its report, its time in milliseconds of the week, the bits of its PDOP and its
// number of satellites.
#[repr(C)]
#[derive(Clone, Copy, Debug, PartialEq, Eq)]
pub struct StationFix {
    pub key: u32,
    pub time: u32,
    pub pdop: u64,
    pub satellites: u8,
}

impl From<Fix> for StationFix {
    ghost from_gives = { λ f r. r ≡ row_of f };

    fn from(fix: Fix) -> StationFix {
        StationFix {
            key: fix.key,
            time: fix.time,
            pdop: fix.pdop,
            satellites: fix.satellites,
        }
    }
}

// Pulls a new link to idle over the capture and puts the best fixes, the best one first, into the rows, as
// many as there are and as fit. Answers how many; the other rows are as before.
pub fn station_board(capture: &[u8], rows: &mut [StationFix]) -> usize
    ensures { BestRows capture.now rows.old result rows.new }
{
    let mut line = Capture::new(capture);
    station_board_of_line(&mut line, rows)
}

// The same through the read-ahead.
pub fn station_board_ahead(capture: &[u8], rows: &mut [StationFix]) -> usize
    ensures { BestRows capture.now rows.old result rows.new }
{
    let mut line = ReadAhead::new(Capture::new(capture));
    station_board_of_line(&mut line, rows)
}

// The same over what waits on any line, after which nothing does. (The two above are for callers that have bytes
// and no line.)
pub fn station_board_of_line<L: Line>(line: &mut L, rows: &mut [StationFix]) -> usize
    ensures board { BestRows (L.Line.waiting line.old) rows.old result rows.new }
    ensures waiting { L.Line.waiting line.new ≡ [] }
{
    let mut link: Link<RawData, AppFile> = Link::new();
    let _held = link.pull_to_idle(line);
    write_rows(&link, rows)
}

fn write_rows(link: &Link<RawData, AppFile>, rows: &mut [StationFix]) -> usize
    ensures count { result ≡ min (length (state_of link.now).board) (length rows.old) }
    ensures rows { rows.new ≡ rows_of (state_of link.now).board rows.old }
{
    for (count, row) in rows.iter_mut().enumerate() {
        let Ok(fix) = link.look(count + 1) else {
            return count;
        };
        *row = StationFix::from(fix);
    }
    rows.len()
}
