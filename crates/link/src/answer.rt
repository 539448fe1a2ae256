// What a pull answers.
use crate::fault::LinkFault;

#[derive(Clone, Copy, Debug, PartialEq, Eq)]
pub enum Answer {
    // Nothing more can be answered; so many bytes are held.
    Idle {
        held: usize,
    },
    Signal {
        byte: u8,
    },
    // A page that is not its report's last.
    Page {
        kind: u8,
        number: u16,
        total: u16,
    },
    // A whole report, its bytes at the start of the buffer.
    Report {
        kind: u8,
        key: u32,
        len: usize,
        reading: Result<(), LinkFault>,
    },
    // A packet that no scheme claims, its data at the start of the buffer.
    Other {
        status: u8,
        kind: u8,
        len: usize,
    },
    Refused(LinkFault),
}
