// The worked cases, once more by the code; those that `worked` proves are among them.
use answers::log;
use fixes::double::rank_key;
use packet::read::read;
use record_vectors::record_cases;
use std::alloc::Global;
use std::fs;
use std::iter::repeat_n;
use stream_vectors::packet_text::PacketText;
use vectors::hex_text::add_hex;
use vectors::tally::Tally;
use vectors::words::{Words, halves, is_remark};
use worked::worked_cases_hold;

pub fn run(rt: &HostRuntime) -> anyhow::Result<()> {
    let _ = worked_cases_hold();
    let mut tally = Tally::new(rt, "worked cases");
    let text = fs::read_to_string(rt, "worked.txt")?;
    for line in text.as_str().lines().filter(|line| !is_remark(line)) {
        let (case, want) = halves(line)?;
        let got = answer(rt.alloc(), case, want)?;
        tally.compare(case, want, got.as_str())?;
    }
    tally.print()
}

// A match on the case's word, since each takes other words behind it.
fn answer(heap: Global, case: &str, want: &str) -> anyhow::Result<String> {
    let mut words = Words::of(heap, case);
    match words.word()? {
        "packet" => packet(&mut words),
        "pulls" => pulls(&mut words),
        "key" => key(&mut words),
        _ => record_cases::answer(heap, case, want),
    }
}

// Words of hex digits, or zeros:N for N bytes 00h.
fn all_bytes(words: &mut Words<'_>) -> anyhow::Result<Vec<u8>> {
    let mut bytes = Vec::new(words.heap);
    for word in words {
        match word.strip_prefix("zeros:") {
            Some(count) => bytes.extend(repeat_n(0, count.parse::<u32>()? as usize))?,
            None => add_hex(&mut bytes, word)?,
        }
    }
    Ok(bytes)
}

// What stands behind a start byte.
fn packet(words: &mut Words<'_>) -> anyhow::Result<String> {
    let bytes = all_bytes(words)?;
    words.text(PacketText(read(bytes.as_slice())))
}

// The answers of a new link up to the first idle, with commas between them.
fn pulls(words: &mut Words<'_>) -> anyhow::Result<String> {
    let bytes = all_bytes(words)?;
    let pulls = log(words.heap, bytes.as_slice())?;
    let mut text = String::new(words.heap);
    for line in pulls.as_str().lines() {
        if !text.is_empty() {
            text.push_str(", ")?;
        }
        text.push_str(line)?;
    }
    Ok(text)
}

fn key(words: &mut Words<'_>) -> anyhow::Result<String> {
    let key = rank_key(words.bits()?);
    words.text(key)
}
