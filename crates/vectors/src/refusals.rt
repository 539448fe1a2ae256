// Refusals and readings as text.
use records::fault::RecordFault;
use refusal::Refusal;
use std::fmt;

// `refused`, and the refusal.
#[derive(Clone, Copy, Debug, PartialEq, Eq)]
pub struct Refused(pub Refusal);

impl fmt::Display for Refused {
    fn fmt<W: fmt::Write>(&self, f: &mut fmt::Formatter<W>) -> fmt::Result {
        let refusal = self.0;
        write!(f, "refused {refusal}")
    }
}

// A reading: 0, or the refusal.
#[derive(Clone, Copy, Debug, PartialEq, Eq)]
pub struct Reading(pub Result<(), RecordFault>);

impl fmt::Display for Reading {
    fn fmt<W: fmt::Write>(&self, f: &mut fmt::Formatter<W>) -> fmt::Result {
        match self.0 {
            Ok(()) => write!(f, "0"),
            Err(fault) => write!(f, "{}", Refused(fault.into())),
        }
    }
}
