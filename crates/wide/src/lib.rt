// The wide sink: up to 32 bits go in at once, and four bytes are stored at a time.
#![tactic(auto)]

ghost use Rattle.std.specs.Prelude.{◌≡◌};
ghost use Rattle.wide.specs.Wide.{wider};
ghost use Rattle.ground.specs.Outcome.{Is};

// 2 ^ 32: of a number that goes in, and of what waits, the low 32 bits are taken.
const LOW: u64 = 0x1_0000_0000;

// Where the next bit goes: `at` bytes are stored, and the low `used` bits of `acc` are to follow.
// The buffer stands beside it and is no field: behind a loop the check does not tie what a struct holds to the buffer that was lent.
#[derive(Clone, Copy)]
pub struct Wide {
    pub acc: u64,
    pub used: usize,
    pub at: usize,
}

impl Wide {
    // An empty sink, whose first bit goes to the top of a byte.
    pub fn new(at: usize) -> Wide
        ensures { result ≡ record { acc = 0; used = 0; at = at } }
    {
        Wide {
            acc: 0,
            used: 0,
            at,
        }
    }
}

// The k bits of v more, at most 32 of them. A buffer without room for four bytes takes nothing.
pub fn put(out: &mut [u8], s: Wide, v: u64, k: usize) -> Wide
    ensures { Is (wider out.old s v k) result out.new }
{
    if 32 < k {
        return s;
    }
    let acc = ((s.acc % LOW) << k) + v % LOW;
    let used = s.used % 32 + k;
    let at = s.at;
    if used < 32 {
        return Wide { acc, used, at };
    }
    if out.len() < 4 || out.len() - 4 < at {
        return s;
    }
    let left = used - 32;
    let word = ((acc >> left) % LOW) as u32;
    out[at..at + 4].copy_from_slice(&word.to_be_bytes());
    Wide {
        acc,
        used: left,
        at: at + 4,
    }
}
