// The parity parts that are due to a payload word of MPEG-TS packets (clause 4.3.3).
#![tactic(auto)]

ghost use Rattle.std.specs.Prelude.{◌≡◌, ℕ, ◌+◌, ◌*◌, ◌<◌, get_or};
ghost use Rattle.parity.specs.Part.{part_of, parts_of};
ghost use Rattle.parity.specs.Steps.{byte_parts, run_of};

use parity::table;

// A part's message is two packets, in bytes; the messages of a word's four parts follow each other.
const MESSAGE: usize = 376;

// Weights in a part d47 .. d0 p0 that is a number: p0 has the weight 1.
const D0: u64 = 1 << 1;

const D8: u64 = 1 << 9;

const D40: u64 = 1 << 41;

// The byte from + i, and zero where there is no such byte. A sum that passes what a usize holds stops there, where no word has a byte.
fn byte(word: &[u8], from: usize, i: usize) -> u8
    ensures { result ≡ get_or word.now (from + i) 0 }
{
    bits::byte(word, from.saturating_add(i))
}

// The part of the i + 1 bytes at a place, from the part v of i of them. d47 .. d40 leave: their sum with the byte is the message whose part is
// added. The rest moves up by a byte, and p0 stays, since it is the sum of all.
fn more(table: &[u64; 256], word: &[u8], from: usize, i: usize, v: u64) -> u64
    requires { (table.now ≡ byte_parts) × (v ≡ run_of word.now from i) }
    ensures { result ≡ run_of word.now from (i + 1) }
{
    let k = (v / D40) as usize ^ byte(word, from, i) as usize;
    (v % D40 / D0 * D8 + v % D0) ^ table[k]
}

// The parity part of the 376 bytes at a place, as a number of 49 bits; what is past the end reads zero.
pub fn part(word: &[u8], from: usize) -> u64
    ensures { result ≡ part_of word.now from }
{
    let table = table::of_bytes();
    let mut v = 0;
    for i in 0..MESSAGE {
        v = more(&table, word, from, i, v);
    }
    v
}

// The four parts of the i + 1 bytes at each of the four places, from those of i of them.
fn more_of_each(table: &[u64; 256], word: &[u8], i: usize, v: &mut [u64; 4])
    requires table { table.now ≡ byte_parts }
    requires parts { (k : ℕ) → k < 4 → get_or v.old k 0 ≡ run_of word.now (376 * k) i }
    ensures { (k : ℕ) → k < 4 → get_or v.new k 0 ≡ run_of word.now (376 * k) (i + 1) }
{
    for (k, part) in v.iter_mut().enumerate() {
        *part = more(table, word, MESSAGE * k, i, *part);
    }
}

// The parity parts of the four parts of a payload word; what is past the end reads zero. They go side by side, since within a part each byte
// waits for the one before it.
pub fn parts(word: &[u8]) -> [u64; 4]
    ensures { result ≡ parts_of word.now }
{
    let table = table::of_bytes();
    let mut v = [0; 4];
    for i in 0..MESSAGE {
        more_of_each(&table, word, i, &mut v);
    }
    v
}
