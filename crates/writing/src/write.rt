// A report's pages written one behind the other, once for every scheme.
ghost use Rattle.std.specs.Prelude.{◌≡◌, ℕ, ◌+◌, ◌-◌, ◌*◌, ◌/◌, ◌<◌, ◌≤◌, ◌++◌, length, drop, Ok};
ghost use Rattle.packet.specs.Writes.{put};
ghost use Rattle.paging.specs.Schemes.{Within};
ghost use Rattle.writing.specs.Cuts.{PagesHoldTheReport};
ghost use Rattle.writing.specs.Writes.{body_size, page_count, written, report_sent};

use packet::write::{WriteFault, write};
use paging::header::Header;
use paging::scheme::Scheme;

// The bytes of a report that a full page holds.
fn body_size<S: Scheme>() -> usize
    ensures { result ≡ body_size S.Scheme.model }
{
    255 - S::HEADER
}

// The pages of a report of so many bytes: an empty report has one, which is empty.
fn page_count<S: Scheme>(n: usize) -> usize
    ensures { result ≡ page_count S.Scheme.model n }
{
    n.div_ceil(body_size::<S>()).max(1)
}

// Full pages first, the rest in the last; only an empty report has an empty page. Answers the number of
// bytes written. What stands behind them, and all that stands there where it refuses, is as before.
pub fn write_report<S: Scheme>(key: u32, report: &[u8], out: &mut [u8]) -> Result<usize, WriteFault>
    ensures answer { result ≡ report_sent S.Scheme.model key report.now (length out.old) }
    ensures bytes { out.new ≡ put result (written S.Scheme.model key report.now) out.old }
{
    let n = report.len();
    if n > S::PAGES as usize * body_size::<S>() {
        return Err(WriteFault::TooLong(n));
    }
    if key as u64 >= S::KEYS {
        return Err(WriteFault::KeyTooGreat);
    }
    // Beside its part of the report, a page has its header and the six bytes of its packet.
    let pages = page_count::<S>(n);
    let size = n + pages * (S::HEADER + 6);
    if out.len() < size {
        return Err(WriteFault::NoRoom(size));
    }
    write_pages::<S>(key, pages, report, out)
}

// Joined, the pages' parts are the report; each before the last is full, and only an empty report has an
// empty one.
pub fn pages_hold_the_report() -> u8
    ensures { PagesHoldTheReport }
{
    0
}

// A page's data, its header first, at the start of the bytes; answers how many it is.
fn lay<S: Scheme>(header: Header, part: &[u8], bytes: &mut [u8]) -> usize
    requires within { Within S.Scheme.model header }
    requires room { S.Scheme.model.header + length part.now ≤ length bytes.old }
    ensures size { result ≡ S.Scheme.model.header + length part.now }
    ensures bytes { bytes.new ≡ (S.Scheme.model.write header ++ part.now) ++ drop result bytes.old }
{
    // It fits, so it is written.
    let _ = S::write(header, bytes);
    let end = S::HEADER + part.len();
    bytes[S::HEADER..end].copy_from_slice(part);
    end
}

// So many pages. Each is laid in a page of its own, and its packet is written to what is left of the
// destination.
fn write_pages<S: Scheme>(
    key: u32,
    pages: usize,
    report: &[u8],
    out: &mut [u8],
) -> Result<usize, WriteFault>
    requires key { key < S.Scheme.model.keys }
    requires size { length report.now ≤ S.Scheme.model.pages * body_size S.Scheme.model }
    requires pages { pages ≡ page_count S.Scheme.model (length report.now) }
    requires room { length (written S.Scheme.model key report.now) ≤ length out.old }
    ensures answer { result ≡ Ok (length (written S.Scheme.model key report.now)) }
    ensures bytes { out.new ≡ put result (written S.Scheme.model key report.now) out.old }
{
    let body = body_size::<S>();
    let mut at = 0;
    for index in 0..pages {
        let from = index * body;
        let end = report.len().min(from + body);
        let mut page = [0; 255];
        let header = Header {
            key,
            page: index as u16 + 1,
            total: pages as u16,
        };
        let size = lay::<S>(header, &report[from..end], &mut page);
        at += write(0, S::TYPE, &page[..size], &mut out[at..])?;
    }
    Ok(at)
}
