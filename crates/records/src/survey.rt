// A survey: 17 bytes, then for each satellite 7 bytes and the parts that the flags announce.
ghost use Rattle.std.specs.Prelude.{◌≡◌, ℕ, ◌+◌, ◌≤◌, Bool, true, cond, length};
ghost use Rattle.std.specs.Option.{option_map};
ghost use Rattle.records.specs.Faults.{reading_of};
ghost use Rattle.records.specs.Surveys.{head_read, PartIf, ReadAt, survey_reading};

use crate::fault::RecordFault;
use crate::numbers::{i16_at, u64_at};

mod cursor;

pub use cursor::Satellites;

// The bytes before the satellites, and the place of their number among them.
const HEAD_SIZE: usize = 17;

const COUNT_PLACE: usize = 16;

// The bits of a satellite's flags 1 that say that it has an L1 part and an L2 part.
const HAS_L1: u8 = 0x40;

const HAS_L2: u8 = 1;

// The bytes of a satellite that are always there, and those of its L1, L2 and enhanced parts.
const FIXED_PART: usize = 7;

const L1_PART: usize = 21;

const L2_PART: usize = 13;

const ENHANCED_PART: usize = 3;

// What stands before the satellites, each DOUBLE as its bits.
#[derive(Clone, Copy, Debug, PartialEq, Eq)]
pub struct SurveyHead {
    pub receive_time: u64,
    pub clock_offset: u64,
    pub count: u8,
}

// A satellite: `place` is that of its first byte in the body, and its parts are parts of the body.
#[derive(Clone, Copy, Debug, PartialEq, Eq)]
pub struct Satellite<'a> {
    pub place: usize,
    pub prn: u8,
    pub flags1: u8,
    pub flags2: u8,
    pub elevation: i16,
    pub azimuth: i16,
    pub l1: Option<&'a [u8]>,
    pub l2: Option<&'a [u8]>,
    pub enhanced: Option<&'a [u8]>,
}

// The head of a survey.
pub fn head(body: &[u8]) -> Result<SurveyHead, RecordFault>
    ensures { result ≡ head_read body.now }
{
    if body.len() < HEAD_SIZE {
        return Err(RecordFault::EndsTooSoon(body.len()));
    }
    Ok(SurveyHead {
        receive_time: u64_at(body, 0),
        clock_offset: u64_at(body, 8),
        count: body[COUNT_PLACE],
    })
}

// Whether the bytes are a survey with these interpretation flags. (`application::check` says why both loop.)
pub fn check(body: &[u8], flags: u8) -> Result<(), RecordFault>
    ensures { reading_of result ≡ survey_reading flags body.now }
{
    for found in Satellites::new(body, flags)? {
        found?;
    }
    Ok(())
}

// A part of so many bytes, if it is there, and the place behind it; nothing, if the body ends too soon.
// (`body.get(at..at + size)` makes the check of a survey slower by a third.)
fn part_if(present: bool, body: &[u8], at: usize, size: usize) -> Option<(Option<&[u8]>, usize)>
    requires { at ≤ length body.now }
    ensures { PartIf present body.now at size result }
{
    if !present {
        return Some((None, at));
    }
    if body.len() - at < size {
        return None;
    }
    Some((Some(&body[at..at + size]), at + size))
}

// The satellite that begins at a place, and the place behind it; nothing, if the body ends too soon.
fn read_satellite(enhanced: bool, body: &[u8], at: usize) -> Option<(Satellite<'_>, usize)>
    ensures { ReadAt enhanced body.now at result }
{
    if body.len().saturating_sub(at) < FIXED_PART {
        return None;
    }
    let flags1 = body[at + 1];
    let (l1, behind) = part_if(flags1 & HAS_L1 != 0, body, at + FIXED_PART, L1_PART)?;
    let (l2, behind) = part_if(flags1 & HAS_L2 != 0, body, behind, L2_PART)?;
    let (enhanced, behind) = part_if(enhanced, body, behind, ENHANCED_PART)?;
    let satellite = Satellite {
        place: at,
        prn: body[at],
        flags1,
        flags2: body[at + 2],
        elevation: i16_at(body, at + 3),
        azimuth: i16_at(body, at + 5),
        l1,
        l2,
        enhanced,
    };
    Some((satellite, behind))
}
