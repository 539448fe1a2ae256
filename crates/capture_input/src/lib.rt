// The raw capture that a program is given.
#![tactic(auto)]

ghost use Rattle.std.specs.Prelude.{◌≡◌, ◌<◌, ◌≤◌, length, vec_len, IfOk, IfSome, MatchOption};

use std::alloc::Global;
use std::io;
use std::io::Read;

// The length of the longest capture that is read.
pub const LIMIT: usize = 65536;

// All that the reader has, or none where that is longer than the limit.
pub fn read_capture<R: Read + Drop>(heap: Global, input: R) -> io::Result<Option<Vec<u8>>>
    ensures short { IfOk result (λ read. IfSome read (λ capture. vec_len capture ≤ LIMIT)) }
    ensures whole { IfOk result (λ read. IfSome (R.Read.remaining input) (λ bytes. MatchOption read (LIMIT < length bytes) (λ capture. capture.items ≡ bytes))) }
{
    let mut capture = Vec::new(heap);
    input.take(LIMIT as u64 + 1).read_to_end(&mut capture)?;
    if capture.len() > LIMIT {
        return Ok(None);
    }
    Ok(Some(capture))
}
