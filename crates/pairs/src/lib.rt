// The bits of a block, a byte to a bit, each with the bit half a segment on (clause 4.4.4). A segment is the addresses with the same five high bits, and its
// size is the number of rows. Every entry of table 10 is odd, so where a row reads a place of a segment, the row half of all rows on reads the place half a
// segment on: one read serves two rows.
#![tactic(auto)]

ghost use Rattle.std.specs.Prelude.{◌≡◌, ℕ, ◌+◌, ◌*◌, ◌/◌, ◌%◌, ◌^◌, ◌<◌, ◌≤◌, length, get_or};
ghost use Rattle.pairs.specs.Pairs.{pairs_of, unpacked};
ghost use Rattle.pairs.specs.Inside.{Copied, spread, Stored, Coupled};

use ground::PAYLOAD_WORD;

// as many pairs as a block's 24 segments have
pub const PAYLOAD_PAIRS: usize = 12288;

pub const SIGNALLING_PAIRS: usize = 768;
// the bytes of half a segment
const PAYLOAD_HALF: usize = 32;

const SIGNALLING_HALF: usize = 2;
// the low bit of a byte that is spread
const LOW: u64 = 1 << 56;

// The word's first 1,536 bytes, and zeros behind a shorter word.
fn block_of(word: &[u8]) -> [u8; PAYLOAD_WORD]
    ensures { Copied word.now result }
{
    let mut block = [0u8; PAYLOAD_WORD];
    let n = word.len().min(PAYLOAD_WORD);
    block[..n].copy_from_slice(&word[..n]);
    block
}

// Of every byte its eight bits, a byte to a bit.
#[derive(Drop)]
struct Spread {
    table: [u64; 256],
    ghost entries: { (b : ℕ) → b < 256 → get_or table b 0 ≡ spread b },
}

impl Spread {
    // Those of a byte's upper seven bits, moved on by one, and its low bit. Computed, in fewer lines than a static of the 256 numbers.
    fn new() -> Spread {
        let mut table = [0u64; 256];
        table[1] = LOW;
        for y in 1..128 {
            let v = table[y] / 256;
            table[2 * y] = v;
            table[2 * y + 1] = v + LOW;
        }
        Spread { table }
    }

    // The eight bits of a byte.
    fn of(&self, b: u8) -> u64
        ensures { (result ≡ spread b) × (result ≤ 0x0101_0101_0101_0101) }
    {
        self.table[usize::from(b)]
    }
}

// Eight bytes: the digits of x in base 256, the lowest first.
fn store(d: &mut [u8], at: usize, x: u64)
    requires { at + 8 ≤ length d.old }
    ensures { Stored d.old at (λ k. x / 256 ^ k % 256) d.new 8 }
{
    d[at..at + 8].copy_from_slice(&x.to_le_bytes());
}

// A segment: `half` bytes of the word from a place on, with as many behind them.
fn couple(spread: &Spread, word: &[u8; PAYLOAD_WORD], d: &mut [u8], from: usize, half: usize)
    requires { (from + half * 2 ≤ 1536) × (8 * (from + half * 2) ≤ length d.old) }
    ensures { Coupled word.now from half d.old d.new half }
{
    for y in 0..half {
        let a = spread.of(word[from + y]);
        let b = spread.of(word[from + half + y]);
        store(d, 8 * (from + y), a + 64 * b);
        store(d, 8 * (from + half + y), b + 64 * a);
    }
}

// The pairs of the block of 24 segments, each of twice `half` bytes of a word. Behind them no address is read. Places past the end of the word read 0.
fn unpack_by(word: &[u8], d: &mut [u8], half: usize)
    requires { (0 < half) × (half ≤ 32) × (length d.old ≡ 24 * (16 * half)) }
    ensures { d.new ≡ pairs_of word.now (16 * half) }
{
    let block = block_of(word);
    let spread = Spread::new();
    for s in 0..24 {
        couple(&spread, &block, d, s * (half * 2), half);
    }
}

// The pairs of a word's block into the lent bytes, 12,288 for the payload's block and 768 for the signalling word's. Places past the end of the word read 0.
pub fn unpack(word: &[u8], d: &mut [u8])
    ensures { d.new ≡ unpacked word.now d.old }
{
    if d.len() == PAYLOAD_PAIRS {
        unpack_by(word, d, PAYLOAD_HALF);
    } else if d.len() == SIGNALLING_PAIRS {
        unpack_by(word, d, SIGNALLING_HALF);
    }
}
