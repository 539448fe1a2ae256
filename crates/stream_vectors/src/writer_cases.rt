// The cases of writers.txt: the packet writer and the page writer.
ghost use Rattle.std.specs.Prelude.{◌≡◌, length, replicate, IfOk};
ghost use Rattle.packet.specs.Packets.{frame};
ghost use Rattle.packet.specs.Writes.{sent, put};
ghost use Rattle.writing.specs.Writes.{written, report_sent};
ghost use Rattle.vectors.specs.Named.{model_of};

use answers::Hex;
use anyhow::{Context, bail};
use packet::write::{WriteFault, write};
use std::alloc::{AllocError, Global};
use std::{fmt, fs};
use vectors::refusals::Refused;
use vectors::schemes::PageScheme;
use vectors::tally::Tally;
use vectors::words::{Words, halves, is_remark};

// What stands in a destination before the call.
const FILL: u8 = 0xEE;

// The most bytes that an answer has in hex; of more it has the fold.
const SHOWN: usize = 48;

pub fn run(rt: &HostRuntime) -> anyhow::Result<()> {
    let mut tally = Tally::new(rt, "writers");
    let text = fs::read_to_string(rt, "writers.txt")?;
    for line in text.as_str().lines().filter(|line| !is_remark(line)) {
        let (case, answer) = halves(line)?;
        let want = without_hash(rt.alloc(), answer)?;
        let got = written(rt.alloc(), case)?;
        tally.compare(case, want.as_str(), got.as_str())?;
    }
    tally.print()
}

// An answer of many bytes has their SHA-256 and their fold; the fold alone is compared.
fn without_hash(heap: Global, answer: &str) -> anyhow::Result<String> {
    let Some((count, rest)) = answer.split_once(" sha256 ") else {
        return Ok(String::from_str(heap, answer)?);
    };
    let (_hash, fold) = rest.split_once(" fold ").context("an answer has no fold")?;
    Ok(format!(in heap; "{count} fold {fold}")?)
}

// A match on the case's word, since each takes other words behind it. A case's destination is made before its last
// word is read: where there is no memory for it, that is what is said.
fn written(heap: Global, case: &str) -> anyhow::Result<String> {
    let mut words = Words::of(heap, case);
    match words.word()? {
        "packet" => packet_case(&mut words),
        "pages" => pages_case(&mut words),
        _ => bail!("a case of no known sort"),
    }
}

fn packet_case(words: &mut Words<'_>) -> anyhow::Result<String> {
    let status = words.byte()?;
    let kind = words.byte()?;
    let room = words.number::<u32>()?;
    let out = destination(words.heap, room)?;
    let data = words.source()?;
    words.text(packet_into(out, status, kind, data.as_slice()))
}

fn pages_case(words: &mut Words<'_>) -> anyhow::Result<String> {
    let packet_type = words.byte()?;
    let key = words.number::<u32>()?;
    let room = words.number::<u32>()?;
    let out = destination(words.heap, room)?;
    let report = words.source()?;
    let scheme = PageScheme::try_from(u32::from(packet_type))?;
    words.text(pages_into(out, scheme, key, report.as_slice()))
}

// What the packet writer makes of a destination of so many bytes.
pub fn packet_written(
    heap: Global,
    room: u32,
    status: u8,
    kind: u8,
    data: &[u8],
) -> Result<WriterAnswer, AllocError>
    ensures { IfOk result (λ w. (w.answer ≡ sent (length «data».now) room) × (w.out.items ≡ put w.answer (frame (record { status = status; type = kind; content = «data».now })) (replicate room FILL))) }
{
    Ok(packet_into(destination(heap, room)?, status, kind, data))
}

// The same of the page writer.
pub fn pages_written(
    heap: Global,
    room: u32,
    scheme: PageScheme,
    key: u32,
    report: &[u8],
) -> Result<WriterAnswer, AllocError>
    ensures { IfOk result (λ w. (w.answer ≡ report_sent (model_of scheme) key report.now room) × (w.out.items ≡ put w.answer (written (model_of scheme) key report.now) (replicate room FILL))) }
{
    Ok(pages_into(destination(heap, room)?, scheme, key, report))
}

// What the packet writer makes of a destination.
fn packet_into(mut out: Vec<u8>, status: u8, kind: u8, data: &[u8]) -> WriterAnswer
    ensures answer { result.answer ≡ sent (length «data».now) (length out.items) }
    ensures out { result.out.items ≡ put result.answer (frame (record { status = status; type = kind; content = «data».now })) out.items }
{
    let answer = write(status, kind, data, out.as_mut_slice());
    WriterAnswer { answer, out }
}

// The same of the page writer.
fn pages_into(mut out: Vec<u8>, scheme: PageScheme, key: u32, report: &[u8]) -> WriterAnswer
    ensures answer { result.answer ≡ report_sent (model_of scheme) key report.now (length out.items) }
    ensures out { result.out.items ≡ put result.answer (written (model_of scheme) key report.now) out.items }
{
    let answer = scheme.write(key, report, out.as_mut_slice());
    WriterAnswer { answer, out }
}

// A destination of so many bytes.
fn destination(heap: Global, room: u32) -> Result<Vec<u8>, AllocError>
    ensures { IfOk result (λ out. out.items ≡ replicate room FILL) }
{
    Ok(vec![in heap; FILL; room as usize]?)
}

// Begins with 0; each byte makes h to 31 h + byte, modulo 2^32.
fn fold(bytes: &[u8]) -> u32 {
    bytes.iter().fold(0u32, |h, byte| {
        h.wrapping_mul(31).wrapping_add(u32::from(*byte))
    })
}

fn is_untouched(bytes: &[u8]) -> bool {
    bytes.iter().all(|byte| *byte == FILL)
}

// A writer's answer and its destination: the number of bytes written, and the bytes or their fold, if all behind them
// is untouched.
#[derive(Debug, Drop)]
pub struct WriterAnswer {
    pub answer: Result<usize, WriteFault>,
    pub out: Vec<u8>,
}

impl fmt::Display for WriterAnswer {
    fn fmt<W: fmt::Write>(&self, f: &mut fmt::Formatter<W>) -> fmt::Result {
        let count = self.answer.unwrap_or(0);
        let Some((bytes, behind)) = self.out.as_slice().split_at_checked(count) else {
            return write!(f, "more bytes than there is room for");
        };
        if !is_untouched(behind) {
            return write!(f, "bytes changed behind those written");
        }
        if let Err(fault) = self.answer {
            return write!(f, "{}", Refused(fault.into()));
        }
        if count > SHOWN {
            let fold = fold(bytes);
            return write!(f, "{count} fold {fold}");
        }
        let bytes = Hex(bytes);
        write!(f, "{count} {bytes}")
    }
}
