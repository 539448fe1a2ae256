// The captures: the answers of their pulls, and the rows of their boards.
ghost use Rattle.std.specs.Prelude.{◌≡◌, List, IfOk, string_bytes};
ghost use Rattle.fixes.specs.declared.fix.Fix.{Fix as Fixed};
ghost use Rattle.station.specs.Boards.{BoardOf};
ghost use Rattle.rows.specs.Rows.{board_text};

use answers::log;
use line::Capture;
use line::read_ahead::ReadAhead;
use link::Link;
use paging::app_file::AppFile;
use paging::raw_data::RawData;
use rows::board_text;
use std::alloc::{AllocError, Global};
use std::fs;
use vectors::hex_text::from_hex;
use vectors::tally::Tally;
use vectors::words::{Words, is_remark};

pub fn run(rt: &HostRuntime) -> anyhow::Result<()> {
    let heap = rt.alloc();
    let mut answers = Tally::new(rt, "captures, answers");
    let mut boards = Tally::new(rt, "captures, boards");
    let text = fs::read_to_string(rt, "captures.txt")?;
    for line in text.as_str().lines().filter(|line| !is_remark(line)) {
        let name = Words::of(heap, line).word()?;
        let capture = from_hex(heap, kept(rt, name, "hex")?.as_str())?;
        let want = kept(rt, name, "answers")?;
        let got = log(heap, capture.as_slice())?;
        answers.compare_lines(name, want.as_str(), got.as_str())?;
        let want = kept(rt, name, "fixlist")?;
        let got = board_of(heap, capture.as_slice())?;
        boards.compare_lines(name, want.as_str(), got.as_str())?;
    }
    answers.print()?;
    boards.print()
}

// What is kept of a capture in a file of this ending.
fn kept(rt: &HostRuntime, name: &str, ending: &str) -> anyhow::Result<String> {
    let path = format!(in rt.alloc(); "captures/{name}.{ending}")?;
    Ok(fs::read_to_string(rt, path.as_str())?)
}

// The rows of a capture's board, pulled over the read-ahead.
pub fn board_of(heap: Global, capture: &[u8]) -> Result<String, AllocError>
    ensures { IfOk result (λ text. (board : List Fixed) × BoardOf capture.now board × (string_bytes text ≡ board_text board)) }
{
    let mut line = ReadAhead::new(Capture::new(capture));
    let mut link: Link<RawData, AppFile> = Link::new();
    let _held = link.pull_to_idle(&mut line);
    board_text(heap, &link)
}
