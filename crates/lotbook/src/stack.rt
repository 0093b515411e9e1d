//! The stack, where memory ends.

use std::io::Write;

/// How many bytes of the stack are taken up at once. The deepest calls, those behind an answer, need some 400,000.
const DEPTH: usize = 524_288;

/// Takes up as much of the stack as a call needs, and gives it back. Returns whether memory has that much.
///
/// It is called before anything else is done: the stack has grown then, and needn't grow any more where a call takes the rest of
/// memory. A stack that can't grow ends the program with no word of it, so the heap is asked first for twice as much.
pub fn grow_stack(rt: &HostRuntime) -> bool {
    if Vec::<u8>::with_capacity(rt.alloc(), 2 * DEPTH).is_err() {
        return false;
    }
    take_up(rt);
    true
}

/// Takes up the bytes. It is a function of its own, since a function takes up its stack where it begins.
#[inline(never)]
fn take_up(rt: &HostRuntime) {
    let depth = [0u8; DEPTH];
    // Nothing is written. The system is handed the address, so the stack really holds the bytes.
    let _ = rt.stderr().write(&depth[..0]);
}
