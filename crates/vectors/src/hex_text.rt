// Bytes from text.
use anyhow::{bail, ensure};
use std::alloc::{AllocError, Global};

// Adds the bytes that the text has, two hex digits each; white space means nothing.
pub fn add_hex(bytes: &mut Vec<u8>, text: &str) -> anyhow::Result<()> {
    let mut high = None;
    for byte in text.bytes().filter(|byte| !byte.is_ascii_whitespace()) {
        let Some(low) = char::from(byte).to_digit(16) else {
            bail!("not a hex digit");
        };
        let low = low as u8;
        high = match high {
            None => Some(low),
            Some(first) => {
                bytes.push(first << 4 | low)?;
                None
            }
        };
    }
    ensure!(high.is_none(), "half a byte");
    Ok(())
}

pub fn from_hex(heap: Global, text: &str) -> anyhow::Result<Vec<u8>> {
    let mut bytes = Vec::new(heap);
    add_hex(&mut bytes, text)?;
    Ok(bytes)
}

// Hex digits, `-` for none.
pub fn bytes_of(heap: Global, text: &str) -> anyhow::Result<Vec<u8>> {
    if text == "-" {
        return Ok(Vec::new(heap));
    }
    from_hex(heap, text)
}

// Hex digits, `-` for none, or rule:N for N bytes by a rule.
pub fn source(heap: Global, text: &str) -> anyhow::Result<Vec<u8>> {
    match text.strip_prefix("rule:") {
        Some(count) => Ok(by_rule(heap, count.parse::<u32>()?)?),
        None => bytes_of(heap, text),
    }
}

// Byte i is 7 i + 13 (i div 256) + 5, modulo 256.
pub fn by_rule(heap: Global, count: u32) -> Result<Vec<u8>, AllocError> {
    (0..count)
        .map(|i| {
            let sum = i
                .wrapping_mul(7)
                .wrapping_add((i / 256).wrapping_mul(13))
                .wrapping_add(5);
            (sum % 256) as u8
        })
        .collect(heap)
}

// The bytes of the part of a text that begins with a line of these two words, up to the next such line.
pub fn part(heap: Global, text: &str, kind: &str, name: &str) -> anyhow::Result<Vec<u8>> {
    let mut bytes = Vec::new(heap);
    let mut inside = false;
    for line in text.lines() {
        let mut words = line.split_whitespace();
        if words.next() == Some(kind) {
            inside = words.next() == Some(name);
        } else if inside {
            add_hex(&mut bytes, line)?;
        }
    }
    Ok(bytes)
}
