// The reading of a report by its kind.
#![tactic(auto)]

ghost use Rattle.std.specs.Prelude.{◌≡◌};
ghost use Rattle.records.specs.Faults.{reading_of};
ghost use Rattle.reading.specs.Readings.{reading};

use records::fault::RecordFault;
use records::kind::Kind;
use records::{position, survey};

// Whether a body is a record of its kind; a report of no kind is none. The lowest byte of a survey's key is its
// interpretation flags.
pub fn read_report(kind: Option<Kind>, key: u32, body: &[u8]) -> Result<(), RecordFault>
    ensures { reading_of result ≡ reading kind key body.now }
{
    match kind.ok_or(RecordFault::NoKind)? {
        Kind::Position => position::check(body),
        Kind::Survey => survey::check(body, (key % 256) as u8),
        Kind::Application => application::check(body),
    }
}
