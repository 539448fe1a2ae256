// A line: bytes that wait, taken one by one.
//
// `Line` is its one operation; a `Capture` is raw bytes in the caller's memory; a `ReadAhead` stands
// over any other line and takes up to 64 bytes from it at a time.
#![tactic(auto)]

ghost use Rattle.std.specs.Prelude.{◌≡◌, ℕ, ◌+◌, min, List, ◌++◌, length, take, drop};
ghost use Rattle.line.specs.Takes.{Taken};

pub mod read_ahead;

pub trait Line {
    // The bytes that wait, the first one first.
    ghost waiting: { Self → List ℕ };

    // The first waiting byte, which is removed, or none where nothing waits.
    fn take(&mut self) -> Option<u8>
        ensures { Taken result (waiting self.old) (waiting self.new) };
}

// Takes bytes from a line into the places, from the first place on, until all are filled or nothing waits, and
// answers how many it took.
pub fn take_into<L: Line>(line: &mut L, places: &mut [u8]) -> usize
    ensures count { result ≡ min (length places.old) (length (L.Line.waiting line.old)) }
    ensures places { places.new ≡ take result (L.Line.waiting line.old) ++ drop result places.old }
    ensures waits { L.Line.waiting line.new ≡ drop result (L.Line.waiting line.old) }
{
    for (taken, place) in places.iter_mut().enumerate() {
        let Some(b) = line.take() else {
            return taken;
        };
        *place = b;
    }
    places.len()
}

// Raw bytes in the caller's memory; those before `at` are taken. (A place in all of them, and not the rest alone,
// since `taken` answers how many are.)
#[derive(Debug, Drop)]
pub struct Capture<'a> {
    bytes: &'a [u8],
    at: usize,
}

impl<'a> Capture<'a> {
    // All the bytes wait.
    pub fn new(bytes: &'a [u8]) -> Capture<'a>
        ensures { ⟦<Capture<'a> as Line>⟧.waiting result ≡ bytes.now }
    {
        Capture { bytes, at: 0 }
    }

    // How many of the bytes are taken.
    pub fn taken(&self) -> usize
        ensures { result ≡ self.now.at }
    {
        self.at
    }
}

impl<'a> Line for Capture<'a> {
    ghost waiting = { λ t. drop t.at t.bytes.now };

    fn take(&mut self) -> Option<u8> {
        let b = *self.bytes.get(self.at)?;
        self.at += 1;
        Some(b)
    }
}
