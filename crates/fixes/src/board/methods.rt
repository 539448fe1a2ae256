// What can be done with a board.
ghost use Rattle.std.specs.Prelude.{◌≡◌, true, [], length};
ghost use Rattle.fixes.specs.Views.{board_of, enter, at_rank};

use super::FixBoard;
use crate::fix::Fix;
use ranking::{Ranked, insert};

const BLANK: Fix = Fix {
    key: 0,
    time: 0,
    pdop: 0,
    satellites: 0,
};

impl FixBoard {
    pub fn new() -> FixBoard
        ensures { board_of result ≡ [] }
    {
        FixBoard {
            places: [BLANK; 32],
            count: 0,
        }
    }

    // Whether the board is full and its last is no later than the fix: it would be the fix that is lost.
    fn keeps_out(&self, fix: &Fix) -> bool
        ensures { result ≡ true → enter fix.now (board_of self.now) ≡ board_of self.now }
    {
        self.len() == 32 && self.places[31].no_later(fix)
    }

    // Puts a fix at its rank; a full board loses its last. One that a full board would lose itself is
    // seen at once, since most fixes of a long run are such.
    pub fn insert(&mut self, fix: Fix)
        ensures { board_of self.new ≡ enter fix (board_of self.old) }
    {
        if self.keeps_out(&fix) {
            return;
        }
        let mut places = self.places;
        let count = insert(&mut places, self.count, fix);
        *self = FixBoard { places, count };
    }

    // How many fixes are on the board.
    pub fn len(&self) -> usize
        ensures { result ≡ length (board_of self.now) }
    {
        self.count
    }

    // The fix at a rank counted from 1.
    pub fn at(&self, rank: usize) -> Option<Fix>
        ensures { result ≡ at_rank rank (board_of self.now) }
    {
        let place = rank.checked_sub(1)?;
        self.places[..self.count].get(place).copied()
    }
}
