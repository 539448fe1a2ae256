// The bytes that a link has taken from its line and not yet removed.
#![tactic(auto)]

mod bytes;

pub use bytes::HeldBytes;
