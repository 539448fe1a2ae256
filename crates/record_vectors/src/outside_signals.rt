// Surveys, held against the signals that another decoder found in them.
//
// A survey has a line `record NUMBER TIME BITS COUNT PRN:SNR ..`, in the order of the record: BITS is its receive
// time, and the pairs are the COUNT satellites with an L1 part.
use crate::ranked_lists::{PLACES, blank_list, is_blank, list_text, times};
use anyhow::{Context, bail};
use records::survey::head;
use signals::{Signal, rank_signals};
use std::alloc::Global;
use std::fs;
use vectors::hex_text::part;
use vectors::tally::Tally;
use vectors::words::Words;

pub fn run(rt: &HostRuntime) -> anyhow::Result<()> {
    let bodies = fs::read_to_string(rt, "outside/rtklib-signals.hex")?;
    let mut tally = Tally::new(rt, "outside, ranked signals");
    let text = fs::read_to_string(rt, "outside/rtklib-signals.txt")?;
    for line in text.as_str().lines() {
        let got = ranked(rt.alloc(), bodies.as_str(), line)?;
        tally.compare(line, line, got.as_str())?;
    }
    tally.print()
}

// What the other decoder found in a survey.
#[derive(Drop)]
struct Found<'a> {
    number: &'a str,
    bits: u64,
    count: usize,
    pairs: Vec<Signal>,
}

impl Found<'_> {
    fn read(heap: Global, line: &str) -> anyhow::Result<Found<'_>> {
        let mut words = Words::of(heap, line);
        let _record = words.word()?;
        let number = words.word()?;
        let _time = words.word()?;
        Ok(Found {
            number,
            bits: words.bits()?,
            count: words.number::<usize>()?,
            pairs: words.map(read_pair).try_collect(heap)?,
        })
    }

    // Whether the code finds the same in the survey.
    fn is_in(&self, body: &[u8], count: usize, list: &[Signal]) -> bool {
        self.count == count
            && head(body).is_ok_and(|head| head.receive_time == self.bits)
            && is_ranking(list, count, self.pairs.as_slice())
    }
}

// PRN:SNR
fn read_pair(word: &str) -> anyhow::Result<Signal> {
    let (prn, snr) = word.split_once(':').context("a pair has no SNR")?;
    Ok(Signal {
        prn: prn.parse::<u8>()?,
        snr: snr.parse::<u8>()?,
    })
}

// The line itself, where the code finds the same; else what it finds.
fn ranked(heap: Global, bodies: &str, line: &str) -> anyhow::Result<String> {
    let found = Found::read(heap, line)?;
    let body = part(heap, bodies, "record", found.number)?;
    let flags = flags_of(heap, bodies, found.number)?;
    let mut list = blank_list(heap, PLACES)?;
    let Ok(count) = rank_signals(body.as_slice(), flags, list.as_mut_slice()) else {
        return Ok(String::from_str(heap, "a refusal")?);
    };
    if found.is_in(body.as_slice(), count, list.as_slice()) {
        return Ok(String::from_str(heap, line)?);
    }
    list_text(heap, count, list.as_slice())
}

// The interpretation flags, which stand behind a record's number.
fn flags_of(heap: Global, bodies: &str, number: &str) -> anyhow::Result<u8> {
    for line in bodies.lines() {
        let mut words = Words::of(heap, line);
        if words.next() == Some("record") && words.next() == Some(number) {
            return words.number::<u8>();
        }
    }
    bail!("no record of this number")
}

// Whether the used places have just these pairs, higher SNR first, and the others are as before.
fn is_ranking(list: &[Signal], count: usize, pairs: &[Signal]) -> bool {
    let Some((used, others)) = list.split_at_checked(count) else {
        return false;
    };
    count == pairs.len()
        && used.is_sorted_by(|a, b| a.snr >= b.snr)
        && used
            .iter()
            .all(|signal| times(used, signal) == times(pairs, signal))
        && is_blank(others)
}
