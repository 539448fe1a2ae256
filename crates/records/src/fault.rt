// Why a record is refused.
ghost use Rattle.std.specs.Prelude.{◌≡◌};
ghost use Rattle.records.specs.Faults.{record_refusal};

use refusal::Refusal;

// Each fault with its place in the body; a report of no kind has none.
#[derive(Clone, Copy, Debug, PartialEq, Eq)]
pub enum RecordFault {
    EndsTooSoon(usize),
    BytesLeftOver(usize),
    TooManySatellites(usize),
    WrongVersion(usize),
    StateAboveTwo(usize),
    WrongRecordLength(usize),
    NoKind,
}

impl From<RecordFault> for Refusal {
    ghost from_gives = { λ e r. r ≡ record_refusal e };

    fn from(e: RecordFault) -> Refusal {
        let (number, place) = match e {
            RecordFault::EndsTooSoon(place) => (8, place),
            RecordFault::BytesLeftOver(place) => (9, place),
            RecordFault::TooManySatellites(place) => (10, place),
            RecordFault::WrongVersion(place) => (11, place),
            RecordFault::StateAboveTwo(place) => (12, place),
            RecordFault::WrongRecordLength(place) => (13, place),
            RecordFault::NoKind => (16, 0),
        };
        Refusal {
            number,
            layer: 3,
            place,
        }
    }
}
