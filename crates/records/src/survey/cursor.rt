// The cursor over a survey's satellites.
ghost use Rattle.std.specs.Prelude.{◌≡◌};
ghost use Rattle.records.specs.SurveyCursors.{still, new_gives, started, Gave};
ghost use Rattle.std.specs.Iterator.{item_count};

use crate::fault::RecordFault;
use crate::survey::{HEAD_SIZE, Satellite, head, read_satellite};

// `left` satellites are to come, the next one from `at` on; behind a fault none is, and `at` is the end.
// (A place in the body, and not the rest alone, since a satellite and a fault have theirs.)
#[derive(Drop)]
pub struct Satellites<'a> {
    body: &'a [u8],
    enhanced: bool,
    left: u8,
    at: usize,
}

impl<'a> Satellites<'a> {
    // A cursor before the first satellite of a survey with these interpretation flags.
    pub fn new(body: &'a [u8], flags: u8) -> Result<Satellites<'a>, RecordFault>
        ensures { new_gives result ≡ started flags body.now }
    {
        let head = head(body)?;
        Ok(Satellites {
            body,
            enhanced: flags & 2 != 0,
            left: head.count,
            at: HEAD_SIZE,
        })
    }
}

// Gives the satellites, and last the fault that ends the survey, if one does.
impl<'a> Iterator for Satellites<'a> {
    type Item = Result<Satellite<'a>, RecordFault>;

    ghost next_gives = { λ s r t. Gave s r t };

    ghost remaining = { item_count still };

    fn next(&mut self) -> Option<Result<Satellite<'a>, RecordFault>> {
        let at = self.at;
        let end = self.body.len();
        if self.left == 0 {
            if at < end {
                self.at = end;
                return Some(Err(RecordFault::BytesLeftOver(at)));
            }
            return None;
        }
        match read_satellite(self.enhanced, self.body, at) {
            Some((satellite, behind)) => {
                self.left -= 1;
                self.at = behind;
                Some(Ok(satellite))
            }
            None => {
                self.left = 0;
                self.at = end;
                Some(Err(RecordFault::EndsTooSoon(end)))
            }
        }
    }
}
