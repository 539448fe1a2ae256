// What the cursors over surveys and application files hand out, as text.
ghost use Rattle.std.specs.Iterator.{IsFinite};

use answers::Hex;
use application::{Record, Records};
use records::fault::RecordFault;
use records::survey::{Satellite, Satellites};
use std::alloc::{AllocError, Global};
use std::fmt;
use vectors::refusals::Refused;

// A part in hex, `-` where it is not there.
fn part(bytes: Option<&[u8]>) -> Hex<'_> {
    Hex(bytes.unwrap_or(&[]))
}

// PLACE:PRN:FLAGS1:FLAGS2:ELEVATION:AZIMUTH:L1:L2:EXTRA
#[derive(Clone, Copy, Debug, PartialEq, Eq)]
pub struct SatelliteText<'a>(pub Satellite<'a>);

impl fmt::Display for SatelliteText<'_> {
    fn fmt<W: fmt::Write>(&self, f: &mut fmt::Formatter<W>) -> fmt::Result {
        let Satellite {
            place,
            prn,
            flags1,
            flags2,
            elevation,
            azimuth,
            l1,
            l2,
            enhanced,
        } = self.0;
        write!(f, "{place}:{prn}:{flags1}:{flags2}:{elevation}:{azimuth}")?;
        let l1 = part(l1);
        let l2 = part(l2);
        let enhanced = part(enhanced);
        write!(f, ":{l1}:{l2}:{enhanced}")
    }
}

// PLACE:SORT:TYPE:DATA
#[derive(Clone, Copy, Debug, PartialEq, Eq)]
pub struct RecordText<'a>(pub Record<'a>);

impl fmt::Display for RecordText<'_> {
    fn fmt<W: fmt::Write>(&self, f: &mut fmt::Formatter<W>) -> fmt::Result {
        let (place, sort, kind, bytes) = match self.0 {
            Record::Galileo { place, states } => (place, "galileo", 0x4F, states),
            Record::BeiDou { place, states } => (place, "beidou", 0x50, states),
            Record::Qzss { place, states } => (place, "qzss", 0x5F, states),
            Record::Unknown { kind, place, bytes } => (place, "unknown", kind, bytes),
        };
        let bytes = Hex(bytes);
        write!(f, "{place}:{sort}:{kind:02X}:{bytes}")
    }
}

pub fn satellites_text(heap: Global, body: &[u8], flags: u8) -> Result<String, AllocError> {
    match Satellites::new(body, flags) {
        Ok(satellites) => each_part(heap, satellites.map(|found| found.map(SatelliteText))),
        Err(fault) => Refused(fault.into()).to_string(heap),
    }
}

pub fn records_text(heap: Global, body: &[u8]) -> Result<String, AllocError> {
    match Records::new(body) {
        Ok(records) => each_part(heap, records.map(|found| found.map(RecordText))),
        Err(fault) => Refused(fault.into()).to_string(heap),
    }
}

// The parts with a space between two, `-` for none; where one is refused, the refusal alone.
fn each_part<T: fmt::Display + Drop, I: Iterator<Item = Result<T, RecordFault>> + Drop>(
    heap: Global,
    cursor: I,
) -> Result<String, AllocError>
    requires can { I.can_next cursor }
    requires ends { IsFinite (I.remaining cursor) }
{
    let mut text = String::new(heap);
    for found in cursor {
        match found {
            Ok(part) if text.is_empty() => write!(text, "{part}")?,
            Ok(part) => write!(text, " {part}")?,
            Err(fault) => return Refused(fault.into()).to_string(heap),
        }
    }
    if text.is_empty() {
        text.push_str("-")?;
    }
    Ok(text)
}
