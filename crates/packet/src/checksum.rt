// The checksum of a packet.
ghost use Rattle.std.specs.Prelude.{◌≡◌, ℕ, ◌+◌, ◌%◌, length};
ghost use Rattle.packet.specs.Packets.{checksum_of};

// The sum of status, type, length and all data bytes modulo 256.
pub fn checksum(status: u8, kind: u8, data: &[u8]) -> u8
    ensures { result ≡ checksum_of (record { status = status; type = kind; content = «data».now }) }
{
    let size = (data.len() % 256) as u8;
    let mut sum = status.wrapping_add(kind).wrapping_add(size);
    for b in data {
        sum = sum.wrapping_add(*b);
    }
    sum
}
