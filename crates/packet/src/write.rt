// One packet written to the start of a destination.
ghost use Rattle.std.specs.Prelude.{◌≡◌, length};
ghost use Rattle.packet.specs.Packets.{frame};
ghost use Rattle.packet.specs.Writes.{write_refusal, sent, put};

use crate::checksum::checksum;
use refusal::Refusal;

// The first and the last byte of a packet.
const START: u8 = 2;

const END: u8 = 3;

// Why nothing is written: too much data (its length), no room (the size needed), or a report's key at or
// above the limit of its scheme.
#[derive(Clone, Copy, Debug, PartialEq, Eq)]
pub enum WriteFault {
    TooLong(usize),
    NoRoom(usize),
    KeyTooGreat,
}

impl From<WriteFault> for Refusal {
    ghost from_gives = { λ e r. r ≡ write_refusal e };

    fn from(e: WriteFault) -> Refusal {
        let (number, place) = match e {
            WriteFault::TooLong(size) => (2, size),
            WriteFault::NoRoom(size) => (3, size),
            WriteFault::KeyTooGreat => (15, 0),
        };
        Refusal {
            number,
            layer: 0,
            place,
        }
    }
}

// Answers the number of bytes written. What stands behind them, and all that stands there where it
// refuses, is as before.
pub fn write(status: u8, kind: u8, data: &[u8], out: &mut [u8]) -> Result<usize, WriteFault>
    ensures answer { result ≡ sent (length «data».now) (length out.old) }
    ensures bytes { out.new ≡ put result (frame (record { status = status; type = kind; content = «data».now })) out.old }
{
    let n = data.len();
    if n > 255 {
        return Err(WriteFault::TooLong(n));
    }
    let size = n + 6;
    if out.len() < size {
        return Err(WriteFault::NoRoom(size));
    }
    let sum = checksum(status, kind, data);
    out[0] = START;
    out[1] = status;
    out[2] = kind;
    out[3] = n as u8;
    out[4..n + 4].copy_from_slice(data);
    out[n + 4] = sum;
    out[n + 5] = END;
    Ok(size)
}
