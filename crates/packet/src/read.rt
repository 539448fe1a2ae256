// What stands behind a start byte: too few bytes yet, a broken packet or a lawful one.
ghost use Rattle.std.specs.Prelude.{◌≡◌};
ghost use Rattle.packet.specs.Reads.{Reads, packet_refusal};

use crate::checksum::checksum;
use refusal::Refusal;

// The last byte of a packet.
const END: u8 = 3;

#[derive(Clone, Copy, Debug, PartialEq, Eq)]
pub struct Packet<'a> {
    pub status: u8,
    pub kind: u8,
    pub data: &'a [u8],
}

// Why a packet is refused, each with its place in the packet.
#[derive(Clone, Copy, Debug, PartialEq, Eq)]
pub enum PacketFault {
    NoEnd(usize),
    WrongSum(usize),
}

impl From<PacketFault> for Refusal {
    ghost from_gives = { λ e r. r ≡ packet_refusal e };

    fn from(e: PacketFault) -> Refusal {
        let (number, place) = match e {
            PacketFault::NoEnd(place) => (4, place),
            PacketFault::WrongSum(place) => (5, place),
        };
        Refusal {
            number,
            layer: 1,
            place,
        }
    }
}

// Checks the packet whose start byte is the first of the bytes (that byte itself is the caller's to find);
// none where the bytes end too soon. The end byte is looked at before the data is summed.
pub fn read(bytes: &[u8]) -> Option<Result<Packet<'_>, PacketFault>>
    ensures { Reads bytes.now result }
{
    let size = *bytes.get(3)? as usize;
    let end = *bytes.get(size + 5)?;
    if end != END {
        return Some(Err(PacketFault::NoEnd(size + 5)));
    }
    let status = bytes[1];
    let kind = bytes[2];
    let data = &bytes[4..size + 4];
    if bytes[size + 4] != checksum(status, kind, data) {
        return Some(Err(PacketFault::WrongSum(size + 4)));
    }
    Some(Ok(Packet { status, kind, data }))
}
