// One packet: 02h, status, type, length L, L data bytes, checksum, 03h.
//
// `checksum` sums what is summed, `read` checks what stands behind a start byte and hands out the
// packet's data as a part of the bytes. A packet that passes both checks is lawful. `write` writes one,
// and `laws` says that reading and writing undo each other.
#![tactic(auto)]

pub mod checksum;
pub mod laws;
pub mod read;
pub mod write;
