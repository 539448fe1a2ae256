// Prints each case on standard input with what the code makes of it.
//
// A case is a line: a word for what is asked, numbers, and bytes; docs/FORMAT.md has the words. A line that is
// empty or begins with # is copied.
#![tactic(auto)]

mod case;
mod parts;
mod ranked;
mod streams;

use case::{Case, low_byte, read_case, scheme_of, source_of};
use packet::read::read;
use record_vectors::report_texts::{HeaderText, kind_name, report_reading};
use records::{position, survey};
use std::fmt::Display;
use std::io;
use stream_vectors::packet_text::PacketText;
use stream_vectors::rank_cases::DoubleText;
use stream_vectors::writer_cases::{packet_written, pages_written};
use vectors::refusals::Reading;
use vectors::words::is_remark;
use worked::worked_cases_hold;

fn main(rt: HostRuntime) -> io::Result<()> {
    let _ = worked_cases_hold();
    for line in rt.lines(rt.alloc()) {
        let line = line?;
        print_line(&rt, line.as_str())?;
    }
    Ok(())
}

fn print_line(rt: &HostRuntime, line: &str) -> io::Result<()> {
    if is_remark(line) {
        return rt.println(line);
    }
    let Some(case) = read_case(line) else {
        return rt.println("no case");
    };
    let bytes = source_of(rt.alloc(), case.bytes)?;
    let shown = case.shown;
    print!(rt; "{shown} =>")?;
    print_answer(rt, case, bytes.as_slice())
}

// An answer, behind a space.
fn tell<T: Display + Drop>(rt: &HostRuntime, answer: T) -> io::Result<()> {
    println!(rt; " {answer}")
}

// What is asked is a word of the case: a match, since each word takes other numbers.
fn print_answer(rt: &HostRuntime, case: Case<'_>, bytes: &[u8]) -> io::Result<()> {
    let heap = rt.alloc();
    let [first, second, third] = case.numbers;
    let (low, scheme) = (low_byte(first), scheme_of(first));
    match case.asked {
        "position" => tell(rt, Reading(position::check(bytes))),
        "survey" => tell(rt, Reading(survey::check(bytes, low))),
        "application" => tell(rt, Reading(application::check(bytes))),
        "kind" => tell(rt, kind_name(scheme, second)),
        "report" => tell(rt, Reading(report_reading(scheme, second, bytes))),
        "header" => tell(rt, HeaderText(scheme.read(bytes))),
        "packet" => tell(rt, PacketText(read(bytes))),
        "double" => print_double(rt, bytes),
        "satellites" => parts::print_satellites(rt, low, bytes),
        "records" => parts::print_records(rt, bytes),
        "rank" => ranked::print(rt, first, low_byte(second), bytes),
        "signals" => ranked::print_with_time(rt, low, bytes),
        "write-packet" => tell(
            rt,
            packet_written(heap, third, low, low_byte(second), bytes)?,
        ),
        "write-pages" => tell(rt, pages_written(heap, third, scheme, second, bytes)?),
        "capture" => streams::print_capture(rt, bytes),
        "stream" => streams::print_reports(rt, bytes),
        _ => rt.println(" nothing that is known"),
    }
}

// The rank key and the thousandths.
fn print_double(rt: &HostRuntime, bytes: &[u8]) -> io::Result<()> {
    let Ok(bytes) = <[u8; 8]>::try_from(bytes) else {
        return rt.println(" no double");
    };
    tell(rt, DoubleText(u64::from_be_bytes(bytes)))
}
