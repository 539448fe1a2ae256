// The 32 best fixes. The type itself says that there are at most 32 and that they are in rank order.
ghost use Rattle.std.specs.Prelude.{◌≡◌, ℕ, ◌≤◌, length, take};
ghost use Rattle.ranking.specs.Boards.{InOrder};
ghost use Rattle.fixes.specs.Ranking.{leads};

use crate::fix::Fix;

mod methods;

// An array and a count, since nothing that a link holds is allocated. No `impl Model`: seen as a list, a board would
// no longer be known from its type to be in rank order and of at most 32 fixes. No derived `==`: boards are alike by
// their fixes, whatever the places past the count hold.
#[derive(Clone, Copy)]
pub struct FixBoard {
    places: [Fix; 32],
    count: usize,
    ghost sized: { length places ≡ 32 },
    ghost within: { count ≤ 32 },
    ghost order: { InOrder leads (take count places) },
}
