// A fix, and the order of fixes.
ghost use Rattle.fixes.specs.Ranking.{leads as fix_leads};
ghost use Rattle.std.proofs.Common.{rules};

use crate::double::rank_key;
use ranking::Ranked;

// The key of the report, the time in milliseconds of the week, the PDOP's bits, the number of satellites.
#[derive(Clone, Copy, Debug, PartialEq, Eq)]
pub struct Fix {
    pub key: u32,
    pub time: u32,
    pub pdop: u64,
    pub satellites: u8,
}

impl Ranked for Fix {
    ghost leads = { fix_leads };

    ghost total = { Prim.search rules };

    ghost trans = { Prim.search rules };

    fn no_later(&self, other: &Fix) -> bool {
        rank_key(self.pdop) <= rank_key(other.pdop)
    }
}
