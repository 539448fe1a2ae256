// The cursor over an application file's records.
ghost use Rattle.std.specs.Prelude.{◌≡◌};
ghost use Rattle.application.specs.Cursors.{still, new_gives, started, Gave};
ghost use Rattle.std.specs.Iterator.{item_count};

use crate::{FRONT_SIZE, Record, VERSION, read_record};
use records::fault::RecordFault;

// The next record begins at `at`; behind the last, and behind a fault, that is the end of the body.
// (A place in the body, and not the rest alone, since a record and a fault have theirs.)
#[derive(Drop)]
pub struct Records<'a> {
    body: &'a [u8],
    at: usize,
}

impl<'a> Records<'a> {
    // A cursor before the first record of an application file.
    pub fn new(body: &'a [u8]) -> Result<Records<'a>, RecordFault>
        ensures { new_gives result ≡ started body.now }
    {
        if body.len() < FRONT_SIZE {
            return Err(RecordFault::EndsTooSoon(body.len()));
        }
        if body[0] != VERSION {
            return Err(RecordFault::WrongVersion(0));
        }
        Ok(Records {
            body,
            at: FRONT_SIZE,
        })
    }
}

// Gives the records, and last the fault that ends the file, if one does.
impl<'a> Iterator for Records<'a> {
    type Item = Result<Record<'a>, RecordFault>;

    ghost next_gives = { Gave };

    ghost remaining = { item_count still };

    fn next(&mut self) -> Option<Result<Record<'a>, RecordFault>> {
        let body = self.body;
        let at = self.at;
        if at >= body.len() {
            return None;
        }
        let found = read_record(body, at);
        self.at = match found {
            Ok(_) => at + 2 + body[at + 1] as usize,
            Err(_) => body.len(),
        };
        Some(found)
    }
}
