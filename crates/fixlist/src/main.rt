// Prints the board of the best fixes from a raw capture on standard input.
#![tactic(auto)]

use capture_input::{LIMIT, read_capture};
use line::Capture;
use line::read_ahead::ReadAhead;
use link::Link;
use paging::app_file::AppFile;
use paging::raw_data::RawData;
use rows::board_text;

fn main(rt: HostRuntime) -> anyhow::Result<()> {
    let Some(capture) = read_capture(rt.alloc(), rt.stdin())? else {
        println!(rt; "longer than {LIMIT}")?;
        return Ok(());
    };
    let mut line = ReadAhead::new(Capture::new(capture.as_slice()));
    let mut link: Link<RawData, AppFile> = Link::new();
    let _held = link.pull_to_idle(&mut line);
    let rows = board_text(rt.alloc(), &link)?;
    print!(rt; "{rows}")?;
    Ok(())
}
