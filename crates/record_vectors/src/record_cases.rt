// The cases of records.txt: readings, kinds, headers, and the parts and lists that the readers hand out.
use crate::ranked_lists::ranked_list;
use crate::record_parts::{records_text, satellites_text};
use crate::report_texts::{HeaderText, kind_name, report_reading};
use anyhow::bail;
use records::fault::RecordFault;
use records::{position, survey};
use std::alloc::Global;
use std::fs;
use vectors::refusals::Reading;
use vectors::schemes::PageScheme;
use vectors::tally::Tally;
use vectors::words::{Words, halves, is_remark};

pub fn run(rt: &HostRuntime) -> anyhow::Result<()> {
    let mut tally = Tally::new(rt, "records");
    let text = fs::read_to_string(rt, "records.txt")?;
    for line in text.as_str().lines().filter(|line| !is_remark(line)) {
        let (case, want) = halves(line)?;
        let got = answer(rt.alloc(), case, want)?;
        tally.compare(case, want, got.as_str())?;
    }
    tally.print()
}

// What the code says of a case; for a ranked list what is to come, if the list is one of those it allows.
// (A match on the case's word, since each takes other words behind it.)
pub fn answer(heap: Global, case: &str, want: &str) -> anyhow::Result<String> {
    let mut words = Words::of(heap, case);
    match words.word()? {
        "position" => reading_by(&mut words, position::check),
        "survey" => survey_reading(&mut words),
        "application" => reading_by(&mut words, application::check),
        "kind" => kind(&mut words),
        "report" => reading_of_report(&mut words),
        "header" => header(&mut words),
        "satellites" => satellites(&mut words),
        "records" => records(&mut words),
        "rank" => ranked_list(&mut words, want),
        _ => bail!("a case of no known sort"),
    }
}

// The reading of the body that the next word has.
fn reading_by<F: FnOnce(&[u8]) -> Result<(), RecordFault>>(
    words: &mut Words<'_>,
    check: F,
) -> anyhow::Result<String>
    requires { F.IsAlwaysCallable check }
{
    let body = words.bytes()?;
    words.text(Reading(check(body.as_slice())))
}

fn survey_reading(words: &mut Words<'_>) -> anyhow::Result<String> {
    let flags = words.number::<u8>()?;
    reading_by(words, |body| survey::check(body, flags))
}

fn kind(words: &mut Words<'_>) -> anyhow::Result<String> {
    let packet_type = words.byte()?;
    let key = words.number::<u32>()?;
    let scheme = PageScheme::try_from(u32::from(packet_type))?;
    words.text(kind_name(scheme, key))
}

fn reading_of_report(words: &mut Words<'_>) -> anyhow::Result<String> {
    let packet_type = words.byte()?;
    let key = words.number::<u32>()?;
    let body = words.bytes()?;
    let scheme = PageScheme::try_from(u32::from(packet_type))?;
    words.text(Reading(report_reading(scheme, key, body.as_slice())))
}

fn header(words: &mut Words<'_>) -> anyhow::Result<String> {
    let packet_type = words.byte()?;
    let data = words.bytes()?;
    let scheme = PageScheme::try_from(u32::from(packet_type))?;
    words.text(HeaderText(scheme.read(data.as_slice())))
}

fn satellites(words: &mut Words<'_>) -> anyhow::Result<String> {
    let flags = words.number::<u8>()?;
    let body = words.bytes()?;
    Ok(satellites_text(words.heap, body.as_slice(), flags)?)
}

fn records(words: &mut Words<'_>) -> anyhow::Result<String> {
    let body = words.bytes()?;
    Ok(records_text(words.heap, body.as_slice())?)
}
