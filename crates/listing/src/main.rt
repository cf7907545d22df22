// The listing program: reads a sheet on standard input and prints its listing (document 01, "Points on either side").
#![tactic(auto)]

ghost use Rattle.std.specs.Prelude.{◌≤◌, length, IfOk};

use std::io;
use std::io::{Read, Write};
use text::{ROOM, Unlisted};

// Reads until the room is full or the input ends, and says how many bytes stand in it then. By hand: std's read_exact fails
// where the input ends first, and its read_to_end takes a heap.
fn read_full<R: Read>(input: &mut R, room: &mut [u8]) -> io::Result<usize>
    ensures { IfOk result (λ n. n ≤ length room.new) }
{
    let mut done = 0;
    while done < room.len() {
        let n = input.read(&mut room[done..])?;
        if n == 0 {
            break;
        }
        done += n;
    }
    Ok(done)
}

fn main(rt: HostRuntime) -> io::Result<()> {
    // The longest sheet that a header can state has 2,571 bytes, and one whose length is not what its
    // header states is refused with 12. So of a longer input one byte more is enough to refuse it.
    let mut sheet = [0u8; 2572];
    let n = read_full(&mut rt.stdin(), &mut sheet)?;
    let mut out = [0u8; ROOM];
    match text::list(&sheet[..n], &mut out) {
        Ok(n) => rt.stdout().write_all(&out[..n]),
        // A refused sheet: the text is the refusal number alone.
        Err(Unlisted::Refused { refusal: _, n }) => rt.stdout().write_all(&out[..n]),
        Err(Unlisted::NoRoom) => Ok(()),
    }
}
