// The joined bodies of a report's pages.
ghost use Rattle.std.specs.Prelude.{◌≡◌, ℕ, ◌≤◌, List, [], ◌++◌, length, take, if◌then◌else◌, nat_le};

use std::marker::Model;

// An array and a length, since nothing that a link holds is allocated.
#[derive(Drop)]
pub struct Store {
    bytes: [u8; 8064],
    len: usize,
}

// Contracts see the bytes joined so far.
impl Model for Store {
    ghost Value = { List ℕ };

    ghost view = { λ s. take s.len s.bytes };

    ghost invariant = { λ s. s.len ≤ 8064 };
}

impl Store {
    pub fn new() -> Store
        ensures { result ≡ [] }
    {
        Store {
            bytes: [0; 8064],
            len: 0,
        }
    }

    pub fn clear(&mut self)
        ensures { self.new ≡ [] }
    {
        self.len = 0;
    }

    // Adds a part where there is room for it, and else nothing.
    pub fn add(&mut self, part: &[u8]) -> Option<()>
        ensures answer { result ≡ (if nat_le (length (self.old ++ part.now)) 8064 then Some tt else None) }
        ensures bytes { self.new ≡ (if nat_le (length (self.old ++ part.now)) 8064 then self.old ++ part.now else self.old) }
        ensures most { length self.new ≤ 8064 }
    {
        if part.len() > 8064 - self.len {
            return None;
        }
        let end = self.len + part.len();
        self.bytes[self.len..end].copy_from_slice(part);
        self.len = end;
        Some(())
    }

    pub fn bytes(&self) -> &[u8]
        ensures value { result.now ≡ self.now }
        ensures len { length result.now ≤ 8064 }
    {
        &self.bytes[..self.len]
    }
}
