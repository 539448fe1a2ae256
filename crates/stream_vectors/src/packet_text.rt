// What stands behind a start byte, as text.
use answers::Hex;
use packet::read::{Packet, PacketFault};
use std::fmt;
use vectors::refusals::Refused;

// lawful STATUS TYPE LENGTH DATA, or why there is no packet.
#[derive(Clone, Copy, Debug, PartialEq, Eq)]
pub struct PacketText<'a>(pub Option<Result<Packet<'a>, PacketFault>>);

impl fmt::Display for PacketText<'_> {
    fn fmt<W: fmt::Write>(&self, f: &mut fmt::Formatter<W>) -> fmt::Result {
        match self.0 {
            None => write!(f, "too few bytes"),
            Some(Err(fault)) => write!(f, "{}", Refused(fault.into())),
            Some(Ok(Packet { status, kind, data })) => {
                let count = data.len();
                let data = Hex(data);
                write!(f, "lawful {status:02X} {kind:02X} {count} {data}")
            }
        }
    }
}
