// An application file: a version, three control bytes of any value, then records of type, length and bytes.
#![tactic(auto)]

ghost use Rattle.std.specs.Prelude.{◌≡◌, ℕ, ◌+◌, ◌≤◌, Bool, true, length};
ghost use Rattle.std.specs.List.{prefix_len};
ghost use Rattle.records.specs.Faults.{reading_of};
ghost use Rattle.application.specs.Applications.{read_count, is_state, record_named, record_read, ReadAt, application_reading};

use records::fault::RecordFault;

mod cursor;

pub use cursor::Records;

// The version, and the bytes before the records.
const VERSION: u8 = 3;

const FRONT_SIZE: usize = 4;

// The types of the records that have states, and how many each has.
const GALILEO: u8 = 0x4F;

const BEIDOU: u8 = 0x50;

const QZSS: u8 = 0x5F;

const GALILEO_STATES: usize = 52;

const BEIDOU_STATES: usize = 30;

const QZSS_STATES: usize = 5;

// The greatest state.
const LAST_STATE: u8 = 2;

// A record: `place` is that of its type in the body, and its bytes are a part of the body.
#[derive(Clone, Copy, Debug, PartialEq, Eq)]
pub enum Record<'a> {
    Galileo {
        place: usize,
        states: &'a [u8],
    },
    BeiDou {
        place: usize,
        states: &'a [u8],
    },
    Qzss {
        place: usize,
        states: &'a [u8],
    },
    Unknown {
        kind: u8,
        place: usize,
        bytes: &'a [u8],
    },
}

// Whether the bytes are an application file. (`records::survey::check` loops alike: one public function for
// both would have to require of its caller that the iterator ends.)
pub fn check(body: &[u8]) -> Result<(), RecordFault>
    ensures { reading_of result ≡ application_reading body.now }
{
    for found in Records::new(body)? {
        found?;
    }
    Ok(())
}

impl<'a> Record<'a> {
    // The record of a type.
    fn new(kind: u8, place: usize, bytes: &'a [u8]) -> Record<'a>
        ensures { record_read result ≡ record_named kind place bytes.now }
    {
        match kind {
            GALILEO => Record::Galileo {
                place,
                states: bytes,
            },
            BEIDOU => Record::BeiDou {
                place,
                states: bytes,
            },
            QZSS => Record::Qzss {
                place,
                states: bytes,
            },
            _ => Record::Unknown { kind, place, bytes },
        }
    }

    // How many states a record of its type has, where the type is known.
    fn state_count(&self) -> Option<usize>
        ensures { result ≡ read_count (record_read self.now) }
    {
        match self {
            Record::Galileo { .. } => Some(GALILEO_STATES),
            Record::BeiDou { .. } => Some(BEIDOU_STATES),
            Record::Qzss { .. } => Some(QZSS_STATES),
            Record::Unknown { .. } => None,
        }
    }
}

// How many bytes stand before the first that is no state.
fn states_in_front(bytes: &[u8]) -> usize
    ensures { result ≡ prefix_len is_state bytes.now }
{
    bytes.iter().take_while(|b| **b <= LAST_STATE).count()
}

// The record that begins at a place.
fn read_record(body: &[u8], at: usize) -> Result<Record<'_>, RecordFault>
    ensures { ReadAt body.now at result }
{
    let Some([kind, size, rest @ ..]) = body.get(at..) else {
        return Err(RecordFault::EndsTooSoon(body.len()));
    };
    let Some(bytes) = rest.get(..*size as usize) else {
        return Err(RecordFault::EndsTooSoon(body.len()));
    };
    let record = Record::new(*kind, at, bytes);
    let Some(count) = record.state_count() else {
        return Ok(record);
    };
    if bytes.len() != count {
        return Err(RecordFault::WrongRecordLength(at + 1));
    }
    let front = states_in_front(bytes);
    if front < count {
        return Err(RecordFault::StateAboveTwo(at + 2 + front));
    }
    Ok(record)
}
