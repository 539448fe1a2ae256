// Streams of paged reports, held against what another decoder made of them.
//
// The reports are surveys in an expanded form (record type 0, no flags), which is of no kind here: each is
// delivered whole, with reading 16. A stream has a line `epoch TIME BITS COUNT PRN PRN ..` for each report
// that the decoder joined: BITS are bytes 0 to 7, COUNT is byte 16, and the PRNs are those of its satellites.
use answers::log;
use anyhow::{Context, ensure};
use records::survey::{SurveyHead, head};
use std::alloc::Global;
use std::{fmt, fs};
use vectors::hex_text::{bytes_of, part};
use vectors::tally::Tally;

// The bytes before the satellites.
const HEAD_SIZE: usize = 17;

pub fn run(rt: &HostRuntime) -> anyhow::Result<()> {
    let streams = fs::read_to_string(rt, "outside/rtklib-pages.hex")?;
    let epochs = fs::read_to_string(rt, "outside/rtklib-pages.txt")?;
    let mut tally = Tally::new(rt, "outside, joined streams");
    for line in epochs.as_str().lines() {
        if let Some(name) = line.strip_prefix("stream ") {
            let want = epochs_of(rt.alloc(), epochs.as_str(), name)?;
            let got = reports_of(rt.alloc(), streams.as_str(), name)?;
            tally.compare_lines(name, want.as_str(), got.as_str())?;
        }
    }
    tally.print()
}

// For each epoch of a stream a line of the reading, BITS, COUNT and the PRNs.
fn epochs_of(heap: Global, epochs: &str, name: &str) -> anyhow::Result<String> {
    let mut text = String::new(heap);
    let mut inside = false;
    for line in epochs.lines() {
        if let Some(stream) = line.strip_prefix("stream ") {
            inside = stream == name;
        } else if inside {
            let (_time, rest) = line
                .trim_start_matches("epoch ")
                .split_once(' ')
                .context("an epoch has no bits")?;
            writeln!(text, "16/3/0 {rest}")?;
        }
    }
    Ok(text)
}

// The same for each report of type 57h that the link delivers from a stream.
fn reports_of(heap: Global, streams: &str, name: &str) -> anyhow::Result<String> {
    let stream = part(heap, streams, "stream", name)?;
    let mut text = String::new(heap);
    for answer in log(heap, stream.as_slice())?.as_str().lines() {
        if let Some((reading, body)) = report_parts(answer) {
            let body = bytes_of(heap, body)?;
            let report = Expanded::of(body.as_slice()).context("a report has no head")?;
            ensure!(
                report.end().is_some(),
                "a report ends inside its satellites"
            );
            writeln!(text, "{reading} {report}")?;
        }
    }
    Ok(text)
}

// The reading and the body of a report of type 57h, from the line of its answer.
pub fn report_parts(answer: &str) -> Option<(&str, &str)> {
    let (_taken, report) = answer.split_once(" report 57 ")?;
    let (front, body) = report.rsplit_once(' ')?;
    let (_length, reading) = front.rsplit_once(' ')?;
    Some((reading, body))
}

// A survey in the expanded form, shown as BITS, COUNT and the PRNs.
#[derive(Clone, Copy, Debug, PartialEq, Eq)]
pub struct Expanded<'a> {
    body: &'a [u8],
    head: SurveyHead,
}

impl<'a> Expanded<'a> {
    pub fn of(body: &'a [u8]) -> Option<Expanded<'a>> {
        let head = head(body).ok()?;
        Some(Expanded { body, head })
    }
}

impl Expanded<'_> {
    // The place behind the satellite that begins at a place. It has 8 bytes (PRN first, flags 1 second), then 40 if
    // bit 6 of flags 1 is set, then 24 if bit 0 is set.
    fn behind(&self, at: usize) -> Option<usize> {
        let flags = *self.body.get(at.saturating_add(1))?;
        let l1 = if flags & 0x40 != 0 { 40 } else { 0 };
        let l2 = if flags & 1 != 0 { 24 } else { 0 };
        Some(at.saturating_add(8 + l1 + l2))
    }

    // The place behind the last satellite, where the report has them all.
    fn end(&self) -> Option<usize> {
        (0..self.head.count).try_fold(HEAD_SIZE, |at, _| self.behind(at))
    }
}

impl fmt::Display for Expanded<'_> {
    fn fmt<W: fmt::Write>(&self, f: &mut fmt::Formatter<W>) -> fmt::Result {
        let SurveyHead {
            receive_time,
            count,
            ..
        } = self.head;
        write!(f, "{receive_time:016X} {count}")?;
        // A place kept by hand: a PRN is printed at each step, and the step's size stands in the bytes.
        let mut at = HEAD_SIZE;
        for _ in 0..count {
            let (Some(prn), Some(behind)) = (self.body.get(at), self.behind(at)) else {
                return write!(f, " ends inside its satellites");
            };
            write!(f, " {prn}")?;
            at = behind;
        }
        if at != self.body.len() {
            write!(f, " and bytes left over")?;
        }
        Ok(())
    }
}
