// The bits of a word, a byte to a bit.
ghost use Rattle.std.specs.Prelude.{◌≡◌, ◌+◌, ◌*◌, ◌<◌, ◌≤◌, length, replicate};
ghost use Rattle.pairs.specs.Inside.{Stored};
ghost use Rattle.listed.specs.Inside.{four_bit, Singles};

use pairs::SIGNALLING_PAIRS;

// The bits of every four bits.
static FOURS: [[u8; 4]; 16] = [
    [0, 0, 0, 0],
    [0, 0, 0, 1],
    [0, 0, 1, 0],
    [0, 0, 1, 1],
    [0, 1, 0, 0],
    [0, 1, 0, 1],
    [0, 1, 1, 0],
    [0, 1, 1, 1],
    [1, 0, 0, 0],
    [1, 0, 0, 1],
    [1, 0, 1, 0],
    [1, 0, 1, 1],
    [1, 1, 0, 0],
    [1, 1, 0, 1],
    [1, 1, 1, 0],
    [1, 1, 1, 1],
];

// The four bits of v at a place.
fn put(v: usize, d: &mut [u8], at: usize)
    requires { (v < 16) × (at + 4 ≤ length d.old) }
    ensures { Stored d.old at (λ k. four_bit (4 * v + k)) d.new 4 }
{
    d[at..at + 4].copy_from_slice(&FOURS[v]);
}

// The bits of a word's first 96 bytes, and zeros behind a shorter word.
pub fn unpack(word: &[u8], d: &mut [u8; SIGNALLING_PAIRS])
    requires { d.old ≡ replicate 768 0 }
    ensures { Singles word.now d.new }
{
    for i in 0..word.len().min(ground::SIGNALLING_WORD) {
        let b = usize::from(word[i]);
        put(b / 16, d, 8 * i);
        put(b % 16, d, 8 * i + 4);
    }
}
