//! Reads one batch of narration words from standard input, and prints its listing or why it is refused.
#![tactic(auto)]

ghost use Rattle.std.specs.Prelude.{◌≡◌, ◌≤◌, length, IfOk};
ghost use Rattle.book_listing.specs.Text.{booklist_text};

use book_listing::{ROOM, booklist};
use std::io;
use std::io::Read;

/// One byte more than is looked at, so that a longer input shows.
const ENOUGH: usize = 16385;

// Reads to the end of a source, or until the buffer is full.
// Kept as a loop over `read`: `read_exact` fails where a source ends before the buffer, and `read_to_end` needs a heap.
fn read_up_to<R: Read>(source: &mut R, buffer: &mut [u8]) -> io::Result<usize>
    ensures within_the_buffer { IfOk result (λ n. n ≤ length buffer.old) }
{
    let mut len = 0;
    while len < buffer.len() {
        let count = source.read(&mut buffer[len..])?;
        if count == 0 {
            break;
        }
        len += count;
    }
    Ok(len)
}

// What to print for an input.
fn text_for<'a>(input: &[u8], out: &'a mut [u8]) -> &'a [u8]
    requires has_room { 364 ≤ length out.old }
    ensures is_the_text { result.now ≡ booklist_text input.now }
{
    match booklist(input, out) {
        Ok(count) => &out[0..count],
        Err(_) => &out[0..0],
    }
}

fn main(rt: HostRuntime) -> io::Result<()> {
    let mut input = [0u8; ENOUGH];
    let len = read_up_to(&mut rt.stdin(), &mut input)?;
    let mut out = [0u8; ROOM];
    rt.write_all(text_for(&input[0..len], &mut out))
}
