// The parts of a record that the cursors hand out.
ghost use Rattle.std.specs.Iterator.{IsFinite};

use crate::tell;
use application::Records;
use record_vectors::record_parts::{RecordText, SatelliteText};
use records::fault::RecordFault;
use records::survey::Satellites;
use std::fmt::Display;
use std::io;
use vectors::refusals::Refused;

pub fn print_satellites(rt: &HostRuntime, flags: u8, body: &[u8]) -> io::Result<()> {
    match Satellites::new(body, flags) {
        Ok(satellites) => print_each(rt, satellites.map(|found| found.map(SatelliteText))),
        Err(fault) => tell(rt, Refused(fault.into())),
    }
}

pub fn print_records(rt: &HostRuntime, body: &[u8]) -> io::Result<()> {
    match Records::new(body) {
        Ok(records) => print_each(rt, records.map(|found| found.map(RecordText))),
        Err(fault) => tell(rt, Refused(fault.into())),
    }
}

// Each part as it comes, a space before it, and the refusal where one is refused. (No text of all parts is made: a
// record may have more of them than there is memory for their text.)
fn print_each<T: Display + Drop, I: Iterator<Item = Result<T, RecordFault>> + Drop>(
    rt: &HostRuntime,
    cursor: I,
) -> io::Result<()>
    requires can { I.can_next cursor }
    requires ends { IsFinite (I.remaining cursor) }
{
    for found in cursor {
        match found {
            Ok(part) => print!(rt; " {part}")?,
            Err(fault) => return tell(rt, Refused(fault.into())),
        }
    }
    println!(rt)
}
