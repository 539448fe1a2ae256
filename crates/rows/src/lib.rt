// The rows that a board of fixes is printed as, best fix first.
//
// A row is the rank of a fix, the reply number in its key, its time, its satellites and the thousandths of
// its PDOP, in right-aligned columns, and a newline.
#![tactic(auto)]

ghost use Rattle.std.specs.Prelude.{◌≡◌, IfOk, Some, string_bytes};
ghost use Rattle.link.specs.Views.{state_of};
ghost use Rattle.rows.specs.Rows.{row_of, row_columns, board_text};

use fixes::Fix;
use fixes::double::thousandths;
use link::Link;
use paging::scheme::Scheme;
use std::alloc::{AllocError, Global};
use std::fmt;

// The board's places.
const PLACES: usize = 32;

#[derive(Clone, Copy, Debug, PartialEq, Eq)]
pub struct Row {
    pub rank: usize,
    pub reply: u32,
    pub time: u32,
    pub satellites: u8,
    pub pdop: i32,
}

// The text of the board of a link, a row for each fix. It fails only for want of memory.
pub fn board_text<A: Scheme, B: Scheme>(
    heap: Global,
    link: &Link<A, B>,
) -> Result<String, AllocError>
    ensures { IfOk result (λ text. string_bytes text ≡ board_text (state_of link.now).board) }
{
    let mut text = String::new(heap);
    for rank in 1..=PLACES {
        let Ok(fix) = link.look(rank) else {
            return Ok(text);
        };
        let row = row_of(rank, fix);
        writeln!(text, "{row}")?;
    }
    Ok(text)
}

// The reply number is in the second byte of a key; the PDOP is in thousandths.
pub fn row_of(rank: usize, fix: Fix) -> Row
    ensures { result ≡ row_of rank fix }
{
    Row {
        rank,
        reply: fix.key / 256 % 256,
        time: fix.time,
        satellites: fix.satellites,
        pdop: thousandths(fix.pdop),
    }
}

// The columns, and no newline.
impl fmt::Display for Row {
    ghost output = { λ row. Some (row_columns row) };

    fn fmt<W: fmt::Write>(&self, f: &mut fmt::Formatter<W>) -> fmt::Result {
        let Row {
            rank,
            reply,
            time,
            satellites,
            pdop,
        } = *self;
        write!(f, "{rank:>4}{reply:>4}{time:>11}{satellites:>4}{pdop:>8}")
    }
}
