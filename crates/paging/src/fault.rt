// Why a page is refused.
ghost use Rattle.std.specs.Prelude.{◌≡◌};
ghost use Rattle.paging.specs.Headers.{page_refusal};

use refusal::Refusal;

// Each fault with its place: the data's length, a place in the header, the page's number.
#[derive(Clone, Copy, Debug, PartialEq, Eq)]
pub enum PageFault {
    Short(usize),
    Unfit(usize),
    OutOfTurn(usize),
}

impl From<PageFault> for Refusal {
    ghost from_gives = { λ e r. r ≡ page_refusal e };

    fn from(e: PageFault) -> Refusal {
        let (number, place) = match e {
            PageFault::Short(place) => (6, place),
            PageFault::Unfit(place) => (7, place),
            PageFault::OutOfTurn(place) => (21, place),
        };
        Refusal {
            number,
            layer: 2,
            place,
        }
    }
}
