// Numbers of several bytes, high byte first. One function for each type: no trait has `from_be_bytes`.
ghost use Rattle.std.specs.Prelude.{◌≡◌, ℕ, ◌+◌, ◌≤◌, length};
ghost use Rattle.records.specs.Numbers.{be32, be64, signed16};

use std::array;

pub(crate) fn i16_at(body: &[u8], at: usize) -> i16
    requires { at + 2 ≤ length body.now }
    ensures { result ≡ signed16 body.now at }
{
    i16::from_be_bytes(array::from_fn(|k| body[at + k]))
}

pub(crate) fn u32_at(body: &[u8], at: usize) -> u32
    requires { at + 4 ≤ length body.now }
    ensures { result ≡ be32 body.now at }
{
    u32::from_be_bytes(array::from_fn(|k| body[at + k]))
}

pub(crate) fn u64_at(body: &[u8], at: usize) -> u64
    requires { at + 8 ≤ length body.now }
    ensures { result ≡ be64 body.now at }
{
    u64::from_be_bytes(array::from_fn(|k| body[at + k]))
}
