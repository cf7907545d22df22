// The steps of a walk over a word, on a slice and on numbers. They are no methods: 01 asks for a reader whose methods are thin and for arithmetic in plain
// functions, and each step has a promise of its own. Each is total; the counts of a word are far below where one wraps.
#![tactic(auto)]

ghost use Rattle.std.specs.Prelude.{◌≡◌, ◌%◌};
ghost use Rattle.bits.specs.Places.{field_at};
ghost use Rattle.sheets.specs.Owned.{owned_at};
ghost use Rattle.steps.specs.Steps.{onward as onward_of, with_tail};

use sheets::owned::Share;

// The number in the n bits at a place.
pub fn bits_at(word: &[u8], at: u32, n: usize) -> u32
    ensures { result ≡ field_at word.now at n }
{
    bits::field(word, at as usize, n)
}

// Num_Pipes_1 (table 15) at a place, as a count.
pub fn pipes_at(word: &[u8], at: u32) -> u16
    ensures { result ≡ field_at word.now at 4 }
{
    bits::field(word, at as usize, 4) as u16
}

// What the p payload pipes own whose records begin at a place; p counts in 8 bits, as there are at most 15.
pub fn owned_by(word: &[u8], at: u32, p: u16) -> Share
    ensures { result ≡ owned_at word.now at (p % 256) }
{
    let [low, _] = p.to_le_bytes();
    sheets::owned::owned_at(word, at, low)
}

// The place behind n records of so many bits.
pub fn onward(at: u32, n: u16, width: u32) -> u32
    ensures { result ≡ onward_of at n width }
{
    at.wrapping_add(u32::from(n).wrapping_mul(width))
}

// What all pipes own: streams of the payload pipes and of the tail pipe, which owns no section (clause 4.10.8).
pub fn with_tail(own: Share, tail: u16) -> Share
    ensures { result ≡ with_tail own tail }
{
    Share {
        s: own.s.wrapping_add(tail),
        d: own.d,
    }
}
