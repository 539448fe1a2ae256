// One answer, as it is printed.
ghost use Rattle.std.specs.Prelude.{◌≡◌, take};
ghost use Rattle.answers.specs.Written.{written_count};

use crate::hex::Hex;
use link::{Answer, LinkFault};
use refusal::Refusal;
use std::fmt;

// An answer, with the bytes taken from the line so far and the buffer that the pull was given.
#[derive(Clone, Copy, Debug, PartialEq, Eq)]
pub struct AnswerLine<'a> {
    pub taken: usize,
    pub answer: Answer,
    pub buffer: &'a [u8],
}

// A reading as it is printed: 0, or the refusal.
#[derive(Clone, Copy, Debug, PartialEq, Eq)]
struct Reading(Result<(), LinkFault>);

impl fmt::Display for Reading {
    fn fmt<W: fmt::Write>(&self, f: &mut fmt::Formatter<W>) -> fmt::Result {
        match self.0 {
            Ok(()) => write!(f, "0"),
            Err(fault) => Refusal::from(fault).fmt(f),
        }
    }
}

// How many bytes the pull of an answer wrote to its buffer.
fn written_count(answer: Answer) -> usize
    ensures { result ≡ written_count answer }
{
    match answer {
        Answer::Report { len, .. } | Answer::Other { len, .. } => len,
        _ => 0,
    }
}

// The bytes that the pull of an answer wrote to the start of its buffer.
pub fn written(answer: Answer, buffer: &[u8]) -> &[u8]
    ensures { result.now ≡ take (written_count answer) buffer.now }
{
    buffer.get(..written_count(answer)).unwrap_or(buffer)
}

impl fmt::Display for AnswerLine<'_> {
    fn fmt<W: fmt::Write>(&self, f: &mut fmt::Formatter<W>) -> fmt::Result {
        let taken = self.taken;
        let bytes = Hex(written(self.answer, self.buffer));
        match self.answer {
            Answer::Idle { held } => write!(f, "{taken} idle {held}"),
            Answer::Signal { byte } => write!(f, "{taken} signal {byte:02X}"),
            Answer::Other { status, kind, len } => {
                write!(f, "{taken} packet {status:02X} {kind:02X} {len} {bytes}")
            }
            Answer::Page {
                kind,
                number,
                total,
            } => write!(f, "{taken} page {kind:02X} {number} {total}"),
            Answer::Report {
                kind,
                key,
                len,
                reading,
            } => {
                let reading = Reading(reading);
                write!(f, "{taken} report {kind:02X} {key} {len} {reading} {bytes}")
            }
            Answer::Refused(fault) => {
                let refusal = Refusal::from(fault);
                write!(f, "{taken} refused {refusal}")
            }
        }
    }
}
