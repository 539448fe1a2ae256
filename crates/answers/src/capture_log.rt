// The answers of a whole capture.
use crate::answer_line::AnswerLine;
use line::Capture;
use link::{Answer, Link};
use paging::app_file::AppFile;
use paging::raw_data::RawData;
use std::alloc::{AllocError, Global};

// The length of the longest report.
const REPORT: usize = 8064;

// Pulls a new link over the capture itself, and gives a line for each answer, up to and with the first idle.
pub fn log(heap: Global, capture: &[u8]) -> Result<String, AllocError> {
    let mut text = String::new(heap);
    let mut line = Capture::new(capture);
    let mut link: Link<RawData, AppFile> = Link::new();
    let mut buffer = [0; REPORT];
    loop {
        let answer = link.pull(&mut line, &mut buffer);
        let answer_line = AnswerLine {
            taken: line.taken(),
            answer,
            buffer: &buffer,
        };
        writeln!(text, "{answer_line}")?;
        if let Answer::Idle { .. } = answer {
            return Ok(text);
        }
    }
}
