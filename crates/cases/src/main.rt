// Runs the code on vectors from files in the folder that it is run in: prints a line for each group of
// vectors, and one for each difference.
//
// Every case is brought to text in the form of its file, so that what is compared is text with text.
#![tactic(auto)]

mod worked_cases;

use record_vectors::{outside_signals, record_cases};
use stream_vectors::{captures, outside_pages, rank_cases, writer_cases};

fn run(rt: &HostRuntime) -> anyhow::Result<()> {
    captures::run(rt)?;
    record_cases::run(rt)?;
    writer_cases::run(rt)?;
    rank_cases::run(rt)?;
    outside_pages::run(rt)?;
    outside_signals::run(rt)?;
    worked_cases::run(rt)
}

fn main(rt: HostRuntime) -> anyhow::Result<()> {
    run(&rt)
}
