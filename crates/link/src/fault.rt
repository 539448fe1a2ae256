// Why a call is refused: its own faults, and those of packets, pages and records.
ghost use Rattle.std.specs.Prelude.{◌≡◌};
ghost use Rattle.link.specs.declared.fault.LinkFault.TheVariants.{Packet, Page, Record};
ghost use Rattle.link.specs.Faults.{link_refusal};

use packet::read::PacketFault;
use paging::fault::PageFault;
use records::fault::RecordFault;
use refusal::Refusal;

// A buffer shorter than the longest report, by its length; a rank where no fix stands.
#[derive(Clone, Copy, Debug, PartialEq, Eq)]
pub enum LinkFault {
    Buffer(usize),
    Packet(PacketFault),
    Page(PageFault),
    Record(RecordFault),
    Rank(usize),
}

impl From<PacketFault> for LinkFault {
    ghost from_gives = { λ e r. r ≡ Packet e };

    fn from(e: PacketFault) -> LinkFault {
        LinkFault::Packet(e)
    }
}

impl From<PageFault> for LinkFault {
    ghost from_gives = { λ e r. r ≡ Page e };

    fn from(e: PageFault) -> LinkFault {
        LinkFault::Page(e)
    }
}

impl From<RecordFault> for LinkFault {
    ghost from_gives = { λ e r. r ≡ Record e };

    fn from(e: RecordFault) -> LinkFault {
        LinkFault::Record(e)
    }
}

// A packet's, a page's and a record's fault keep their numbers and places.
impl From<LinkFault> for Refusal {
    ghost from_gives = { λ e r. r ≡ link_refusal e };

    fn from(e: LinkFault) -> Refusal {
        let (number, place) = match e {
            LinkFault::Packet(fault) => return fault.into(),
            LinkFault::Page(fault) => return fault.into(),
            LinkFault::Record(fault) => return fault.into(),
            LinkFault::Buffer(place) => (1, place),
            LinkFault::Rank(place) => (22, place),
        };
        Refusal {
            number,
            layer: 0,
            place,
        }
    }
}

impl LinkFault {
    pub fn number(self) -> u8
        ensures { result ≡ (link_refusal self).number }
    {
        Refusal::from(self).number
    }

    pub fn layer(self) -> u8
        ensures { result ≡ (link_refusal self).layer }
    {
        Refusal::from(self).layer
    }

    pub fn place(self) -> usize
        ensures { result ≡ (link_refusal self).place }
    {
        Refusal::from(self).place
    }
}
