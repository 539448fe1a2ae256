// A position: 78 bytes, then a channel and a satellite number (PRN) for each of N satellites.
ghost use Rattle.std.specs.Prelude.{◌≡◌, ℕ, ◌+◌, ◌≤◌, length};
ghost use Rattle.records.specs.Faults.{reading_of};
ghost use Rattle.records.specs.Positions.{position_reading, PositionRead, PositionAnswer};

use crate::fault::RecordFault;
use crate::numbers::{u32_at, u64_at};
use std::cmp::Ordering;

// The bytes before the satellites, the place of their number N, and its greatest value.
const HEAD: usize = 78;

const COUNT: usize = 77;

const MOST: usize = 12;

// The fields of a position, each DOUBLE as its bits; `satellites` has two bytes for each.
#[derive(Clone, Copy, Debug, PartialEq, Eq)]
pub struct Position<'a> {
    pub latitude: u64,
    pub longitude: u64,
    pub altitude: u64,
    pub clock_offset: u64,
    pub frequency_offset: u64,
    pub pdop: u64,
    pub latitude_rate: u64,
    pub longitude_rate: u64,
    pub altitude_rate: u64,
    pub time: u32,
    pub flags: u8,
    pub count: u8,
    pub satellites: &'a [u8],
}

// Whether the bytes are a position.
pub fn check(body: &[u8]) -> Result<(), RecordFault>
    ensures { reading_of result ≡ position_reading body.now }
{
    let Some(count) = body.get(COUNT) else {
        return Err(RecordFault::EndsTooSoon(body.len()));
    };
    let count = *count as usize;
    if count > MOST {
        return Err(RecordFault::TooManySatellites(COUNT));
    }
    let size = HEAD + 2 * count;
    match body.len().cmp(&size) {
        Ordering::Less => Err(RecordFault::EndsTooSoon(body.len())),
        Ordering::Equal => Ok(()),
        Ordering::Greater => Err(RecordFault::BytesLeftOver(size)),
    }
}

// The fields of bytes that are long enough.
fn fields(body: &[u8]) -> Position<'_>
    requires { 78 ≤ length body.now }
    ensures { PositionRead body.now result }
{
    Position {
        latitude: u64_at(body, 0),
        longitude: u64_at(body, 8),
        altitude: u64_at(body, 16),
        clock_offset: u64_at(body, 24),
        frequency_offset: u64_at(body, 32),
        pdop: u64_at(body, 40),
        latitude_rate: u64_at(body, 48),
        longitude_rate: u64_at(body, 56),
        altitude_rate: u64_at(body, 64),
        time: u32_at(body, 72),
        flags: body[76],
        count: body[COUNT],
        satellites: &body[HEAD..],
    }
}

// The position that the bytes are, or why they are none.
pub fn read(body: &[u8]) -> Result<Position<'_>, RecordFault>
    ensures { PositionAnswer body.now result }
{
    check(body)?;
    Ok(fields(body))
}
