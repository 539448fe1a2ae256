// What a page scheme is.
ghost use Rattle.std.specs.Prelude.{◌≡◌, ℕ, length};
ghost use Rattle.paging.specs.Schemes.{Scheme as Model, Laws};
ghost use Rattle.paging.specs.Headers.{read_by};
ghost use Rattle.paging.specs.Writes.{header_fits, headed};

use crate::fault::PageFault;
use crate::header::Header;
use records::kind::Kind;

// The constants are the scheme's numbers, tied to the model by the laws below the functions.
pub trait Scheme {
    const TYPE: u8;

    const HEADER: usize;

    const PAGES: u16;

    const KEYS: u64;

    ghost TYPE: { ℕ };

    ghost HEADER: { ℕ };

    ghost PAGES: { ℕ };

    ghost KEYS: { ℕ };

    ghost model: { Model };

    // The key, the page and the total of a header: plain numbers, as they stand in it.
    fn read(data: &[u8]) -> Result<(u32, u16, u16), PageFault>
        ensures { result ≡ read_by model «data».now };

    // Whether a header's numbers are within the scheme's limits, and the header has room in so many bytes.
    fn fits(header: Header, room: usize) -> bool
        ensures { result ≡ header_fits model header room }
    {
        let Header { key, page, total } = header;
        (key as u64) < Self::KEYS
            && 1 <= page
            && page <= total
            && total <= Self::PAGES
            && Self::HEADER <= room
    }

    // Puts the header at the start of the bytes where it fits, and says whether it did: yes or no is all that
    // there is to say, and no caller ends by it. Else nothing is written.
    fn write(header: Header, out: &mut [u8]) -> bool
        ensures answer { result ≡ header_fits model header (length out.old) }
        ensures bytes { out.new ≡ headed model header out.old };

    // The kind of report that a key means, if it means one.
    fn means(key: u32) -> Option<Kind>
        ensures { result ≡ model.means key };

    ghost type_is: { TYPE ≡ model.type };

    ghost header_is: { HEADER ≡ model.header };

    ghost pages_is: { PAGES ≡ model.pages };

    ghost keys_is: { KEYS ≡ model.keys };

    ghost lawful: { Laws model };
}

// A written header reads back as the same numbers, a read header is written back as the same bytes, and a
// report of full pages fits the store.
pub fn scheme_laws<S: Scheme>() -> u8
    ensures { Laws S.Scheme.model }
{
    0
}
