// What the link makes of a stream.
use crate::case::source_of;
use answers::log;
use std::io;
use stream_vectors::captures::board_of;
use stream_vectors::outside_pages::{Expanded, report_parts};

// The answer of every pull, then the rows of the board, which is pulled over the read-ahead.
pub fn print_capture(rt: &HostRuntime, capture: &[u8]) -> io::Result<()> {
    let answers = log(rt.alloc(), capture)?;
    let rows = board_of(rt.alloc(), capture)?;
    print!(rt; "\n{answers}{rows}")
}

// A line for each report of type 57h. The reports are surveys in an expanded form, which is of no kind here: each
// is delivered whole, with reading 16.
pub fn print_reports(rt: &HostRuntime, stream: &[u8]) -> io::Result<()> {
    println!(rt)?;
    let answers = log(rt.alloc(), stream)?;
    for answer in answers.as_str().lines() {
        if let Some((reading, body)) = report_parts(answer) {
            print_report(rt, reading, body)?;
        }
    }
    Ok(())
}

// The reading, the receive time, the number of satellites and their PRNs.
fn print_report(rt: &HostRuntime, reading: &str, body: &str) -> io::Result<()> {
    let body = source_of(rt.alloc(), body)?;
    match Expanded::of(body.as_slice()) {
        Some(report) => println!(rt; "{reading} {report}"),
        None => rt.println("no head"),
    }
}
