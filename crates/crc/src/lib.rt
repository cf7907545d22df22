// The CRC word of annex B over any run of bits of packed bytes.
#![tactic(auto)]

ghost use Rattle.std.specs.Prelude.{◌≡◌, ◌-◌, ◌*◌, ◌^◌, ◌≤◌, ◌<◌};
ghost use Rattle.ground.specs.Table.{tab};
ghost use Rattle.bits.specs.Places.{bit_at};
ghost use Rattle.crc.specs.Crc.{clock, crc_of, crc8_of, crc12_of};

// One clock of a register whose last stage has the weight top.
fn clocked(top: u32, poly: u32, r: u32, b: u8) -> u32
    requires { (0 < top) × (top ≤ 32768) × (poly < top * 2) × (r < top * 2) × (b < 2) }
    ensures { result ≡ clock top poly r b }
{
    (r * 2 % (top * 2)) ^ ((r / top + b as u32) % 2 * poly)
}

// The weight of the last of width stages.
fn top_of(width: u32) -> u32
    requires { (0 < width) × (width ≤ 16) }
    ensures { (result ≡ 2 ^ (width - 1)) × (0 < result) × (result ≤ 32768) }
{
    1 << (width - 1)
}

// The CRC over the n bits at a place, for any width and polynomial; the bits past the end are zeros.
fn crc(word: &[u8], at: usize, n: usize, width: u32, poly: u32) -> u32
    requires { (0 < width) × (width ≤ 16) × (poly < 2 ^ width) }
    ensures { result ≡ crc_of width poly (tab (bit_at word.now) at n) }
{
    let top = top_of(width);
    let ones = top * 2 - 1;
    let mut r = ones;
    for i in 0..n {
        r = clocked(top, poly, r, bits::bit_from(word, at, i));
    }
    ones - r
}

// The CRC-8 over the n bits at a place. Both widths are one call of one function: a const parameter would say no more than its arguments do.
pub fn crc8(word: &[u8], at: usize, n: usize) -> u8
    ensures { result ≡ crc8_of word.now at n }
{
    crc(word, at, n, 8, 0x2F) as u8
}

// The CRC-12 over the n bits at a place.
pub fn crc12(word: &[u8], at: usize, n: usize) -> u16
    ensures { result ≡ crc12_of word.now at n }
{
    crc(word, at, n, 12, 0x80F) as u16
}
