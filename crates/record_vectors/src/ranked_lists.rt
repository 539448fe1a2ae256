// Ranked lists of signals. The order among equal SNR is free, so a list is held against groups of equal SNR.
ghost use Rattle.std.specs.Prelude.{◌≡◌, replicate, IfOk};

use anyhow::Context;
use records::fault::RecordFault;
use signals::{Signal, rank_signals};
use std::alloc::{AllocError, Global};
use std::fmt;
use vectors::refusals::Refused;
use vectors::words::Words;

// What stands in a list before the call.
pub const BLANK: Signal = Signal {
    prn: 0xEE,
    snr: 0xEE,
};

// The places of a list for a whole survey: more than it may fill.
pub const PLACES: u32 = 40;

// So many places are filled with signals of this SNR, each a different one of the satellites named.
#[derive(Drop)]
struct Group {
    snr: u8,
    count: usize,
    prns: Vec<u8>,
}

// PRN:SNR
#[derive(Clone, Copy, Debug, PartialEq, Eq)]
pub struct SignalText(pub Signal);

impl fmt::Display for SignalText {
    fn fmt<W: fmt::Write>(&self, f: &mut fmt::Formatter<W>) -> fmt::Result {
        let Signal { prn, snr } = self.0;
        write!(f, "{prn}:{snr}")
    }
}

// A list of so many places, none of them used.
pub fn blank_list(heap: Global, places: u32) -> Result<Vec<Signal>, AllocError>
    ensures { IfOk result (λ list. list.items ≡ replicate places BLANK) }
{
    Ok(vec![in heap; BLANK; places as usize]?)
}

// Whether all places are as they were before the call.
pub(crate) fn is_blank(places: &[Signal]) -> bool {
    places.iter().all(|signal| *signal == BLANK)
}

// How often an entry stands in a list.
pub(crate) fn times<T: PartialEq>(list: &[T], entry: &T) -> usize {
    list.iter().filter(|other| *other == entry).count()
}

// COUNT, then PRN:SNR for each place used. (A count beside the list here and below: it is what the call answered, and
// may be wrong.)
pub(crate) fn list_text(heap: Global, count: usize, list: &[Signal]) -> anyhow::Result<String> {
    let mut text = format!(in heap; "{count}")?;
    for signal in list.iter().take(count) {
        let signal = SignalText(*signal);
        write!(text, " {signal}")?;
    }
    Ok(text)
}

// SNR:HOW-MANY:PRN,PRN,..
fn read_group(heap: Global, word: &str) -> anyhow::Result<Group> {
    let (snr, rest) = word.split_once(':').context("a group has no count")?;
    let (count, names) = rest.split_once(':').context("a group has no satellites")?;
    let prns = names
        .split(',')
        .map(|name| -> anyhow::Result<u8> { Ok(name.parse::<u8>()?) })
        .try_collect(heap)?;
    Ok(Group {
        snr: snr.parse::<u8>()?,
        count: count.parse::<usize>()?,
        prns,
    })
}

// Whether the places hold signals of a group, none more often than it is named.
fn is_filled_by(places: &[Signal], group: &Group) -> bool {
    let prns = group.prns.as_slice();
    places.iter().all(|signal| {
        signal.snr == group.snr && times(places, signal) <= times(prns, &signal.prn)
    })
}

// Whether the groups, one behind the other, fill the places that are used, and the others are as before.
fn is_allowed(groups: Words<'_>, count: usize, list: &[Signal]) -> anyhow::Result<bool> {
    let heap = groups.heap;
    let mut rest = list;
    let mut filled: usize = 0;
    for word in groups.filter(|word| *word != "free") {
        let group = read_group(heap, word)?;
        let Some((places, behind)) = rest.split_at_checked(group.count) else {
            return Ok(false);
        };
        if !is_filled_by(places, &group) {
            return Ok(false);
        }
        filled = filled.saturating_add(group.count);
        rest = behind;
    }
    Ok(filled == count && is_blank(rest))
}

// What is to come, where the call answers that count and one of the lists allowed.
fn listed(heap: Global, want: &str, count: usize, list: &[Signal]) -> anyhow::Result<String> {
    let mut words = Words::of(heap, want);
    let wanted = words.next().context("nothing is to come")?;
    if wanted.parse::<usize>() == Ok(count) && is_allowed(words, count, list)? {
        return Ok(String::from_str(heap, want)?);
    }
    list_text(heap, count, list)
}

// The survey call of a case, with a list of the case's places.
pub(crate) fn ranked_list(words: &mut Words<'_>, want: &str) -> anyhow::Result<String> {
    let places = words.number::<u32>()?;
    let flags = words.number::<u8>()?;
    let body = words.bytes()?;
    let mut list = blank_list(words.heap, places)?;
    match rank_signals(body.as_slice(), flags, list.as_mut_slice()) {
        Ok(count) => listed(words.heap, want, count, list.as_slice()),
        Err(fault) => refused(words, fault, list.as_slice()),
    }
}

// The refusal, which leaves the list as it was.
fn refused(words: &Words<'_>, fault: RecordFault, list: &[Signal]) -> anyhow::Result<String> {
    if !is_blank(list) {
        return words.text("a refusal with the list changed");
    }
    words.text(Refused(fault.into()))
}
