// A case, read from its line.
ghost use Rattle.std.specs.Prelude.{◌≡◌, ◌≢◌, ◌%◌};
ghost use Rattle.paging.specs.RawDatas.{raw_data};
ghost use Rattle.vectors.specs.declared.schemes.PageScheme.TheVariants.{RawData, AppFile};

use std::alloc::Global;
use std::io;
use std::io::ErrorKind;
use vectors::hex_text::by_rule;
use vectors::schemes::PageScheme;

// A longer line is printed without its bytes.
const LONG: usize = 800;

#[derive(Clone, Copy, Debug, PartialEq, Eq)]
pub struct Case<'a> {
    pub shown: &'a str,
    pub asked: &'a str,
    pub numbers: [u32; 3],
    pub bytes: &'a str,
}

// The last word of a line is the bytes; a number that is not there is 0.
pub fn read_case(line: &str) -> Option<Case<'_>> {
    let (front, bytes) = line.rsplit_once(' ')?;
    let mut words = front.split_whitespace();
    Some(Case {
        shown: if line.len() > LONG { front } else { line },
        asked: words.next()?,
        numbers: [
            number(words.next())?,
            number(words.next())?,
            number(words.next())?,
        ],
        bytes,
    })
}

// Decimal, or hex digits with an h behind them.
fn number(word: Option<&str>) -> Option<u32> {
    let Some(word) = word else {
        return Some(0);
    };
    match word.strip_suffix('h') {
        Some(digits) => u32::from_str_radix(digits, 16).ok(),
        None => word.parse::<u32>().ok(),
    }
}

pub fn low_byte(number: u32) -> u8
    ensures { result ≡ number % 256 }
{
    (number % 256) as u8
}

// Hex digits, `-` for no bytes, or rule:N for N bytes by a rule.
pub fn source_of(heap: Global, word: &str) -> io::Result<Vec<u8>> {
    if word == "-" {
        return Ok(Vec::new(heap));
    }
    let Some(count) = word.strip_prefix("rule:") else {
        return from_hex(heap, word);
    };
    match count.parse::<u32>() {
        Ok(count) => Ok(by_rule(heap, count)?),
        Err(_) => Err(ErrorKind::InvalidData.into()),
    }
}

// Two digits for each byte. (Not as `vectors::hex_text` has it: no white space, and a pair may be a sign and a digit.)
fn from_hex(heap: Global, word: &str) -> io::Result<Vec<u8>> {
    let mut bytes = Vec::new(heap);
    for at in (0..word.len()).step_by(2) {
        let pair = word.get(at..at.saturating_add(2)).unwrap_or("half a byte");
        let Ok(byte) = u8::from_str_radix(pair, 16) else {
            return Err(ErrorKind::InvalidData.into());
        };
        bytes.push(byte)?;
    }
    Ok(bytes)
}

// The scheme of a packet type; any other type is taken as that of application files.
pub fn scheme_of(packet_type: u32) -> PageScheme
    ensures raw_data { packet_type ≡ raw_data.type → result ≡ RawData }
    ensures other { packet_type ≢ raw_data.type → result ≡ AppFile }
{
    PageScheme::try_from(packet_type).unwrap_or(PageScheme::AppFile)
}
