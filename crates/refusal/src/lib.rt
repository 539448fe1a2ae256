// A refusal as a caller sees it, whichever layer it comes from.
#![tactic(auto)]

ghost use Rattle.std.specs.Prelude.{Some};
ghost use Rattle.refusal.specs.Texts.{refusal_text};

use std::fmt;

// Its number, the layer that refused (0 call, 1 packet, 2 page, 3 record) and the place it speaks of. These
// are the numbers of a log; in code a fault is a case of its layer's enum, which turns into them by `From`.
#[derive(Clone, Copy, Debug, PartialEq, Eq)]
pub struct Refusal {
    pub number: u8,
    pub layer: u8,
    pub place: usize,
}

// NUMBER/LAYER/PLACE.
impl fmt::Display for Refusal {
    ghost output = { λ r. Some (refusal_text r) };

    fn fmt<W: fmt::Write>(&self, f: &mut fmt::Formatter<W>) -> fmt::Result {
        let Refusal {
            number,
            layer,
            place,
        } = *self;
        write!(f, "{number}/{layer}/{place}")
    }
}
