// Packed bits (annex A): the first bit is the top bit of the first byte, and a number stands most significant bit first.
#![tactic(auto)]

ghost use Rattle.std.specs.Prelude.{◌≡◌, ◌+◌, ◌-◌, ◌/◌, ◌%◌, ◌^◌, ◌<◌, get_or};
ghost use Rattle.bits.specs.Places.{bit_at, field_at};

// The byte at a place; a place past the end reads zero.
pub fn byte(s: &[u8], i: usize) -> u8
    ensures { result ≡ get_or s.now i 0 }
{
    s.get(i).copied().unwrap_or(0)
}

// The bit k of the byte j, counted from the top; zero where there is no such byte.
fn bit_of(s: &[u8], j: usize, k: usize) -> u8
    requires { k < 8 }
    ensures { result ≡ get_or s.now j 0 / 2 ^ (7 - k) % 2 }
{
    (byte(s, j) >> (7 - k)) % 2
}

// The bit i; a place past the end reads zero.
pub fn bit(s: &[u8], i: usize) -> u8
    ensures { result ≡ bit_at s.now i }
{
    bit_of(s, i / 8, i % 8)
}

// The bit at + i. The place is added up by bytes and bits, so that no sum wraps, whatever the two numbers are.
pub fn bit_from(s: &[u8], at: usize, i: usize) -> u8
    ensures { result ≡ bit_at s.now (at + i) }
{
    let k = at % 8 + i % 8;
    bit_of(s, at / 8 + i / 8 + k / 8, k % 8)
}

// The number in the n bits from a place on; a place past the end reads zero, and a width above 32 gives zero.
pub fn field(s: &[u8], at: usize, n: usize) -> u32
    ensures { result ≡ field_at s.now at n }
{
    if 32 < n {
        return 0;
    }
    let mut v: u32 = 0;
    for i in 0..n {
        v = v * 2 + bit_from(s, at, i) as u32;
    }
    v
}
