// Codes a word under each pattern, and prints of each codeword its length in bytes, its first and last eight bytes and
// its CRC-12. What it must print, the file stdout, is from the second implementation: `cargo run --release --bin vectors`
// in compare/.
#![tactic(auto)]

use ground::{PATTERNS, PAYLOAD_WORD, SIGNALLING_WORD};
use std::io;

// The longest codeword, in bytes.
const LONGEST: usize = 7680;

// The number after x in a sequence (xorshift).
fn next(x: u32) -> u32 {
    let a = x ^ (x << 13);
    let b = a ^ (a >> 17);
    b ^ (b << 5)
}

// Fills a word with the low bytes of the sequence, from the number after 1 on.
fn fill(word: &mut [u8]) {
    let mut x = 1;
    for byte in word.iter_mut() {
        x = next(x);
        let [low, ..] = x.to_le_bytes();
        *byte = low;
    }
}

// Clears the spare bits of a word, its last six.
fn clear_spare(word: &mut [u8]) {
    if let Some(last) = word.last_mut() {
        *last &= 0xC0;
    }
}

// Eight bytes in hex, by two places of 32 bits.
fn print_bytes(
    rt: &impl Print,
    name: &str,
    codeword: &[u8],
    one: usize,
    two: usize,
) -> io::Result<()> {
    let first = bits::field(codeword, one, 32);
    let second = bits::field(codeword, two, 32);
    print!(rt; " {name} {first:08x}{second:08x}")
}

// The line of a codeword of eight bytes or more.
fn print_line(rt: &impl Print, block: usize, pattern: u32, codeword: &[u8]) -> io::Result<()> {
    let n = codeword.len();
    if !(8..=LONGEST).contains(&n) {
        return Ok(());
    }
    print!(rt; "block {block} pattern {pattern} bytes {n}")?;
    print_bytes(rt, "first", codeword, 0, 32)?;
    print_bytes(rt, "last", codeword, 8 * n - 64, 8 * n - 32)?;
    let crc12 = crc::crc12(codeword, 0, 8 * n);
    println!(rt; " crc12 {crc12:03x}")
}

// Codes a word under a pattern, and prints the line of the codeword, or the number of the refusal.
fn print_coded(
    rt: &impl Print,
    block: usize,
    pattern: u32,
    word: &[u8],
    codeword: &mut [u8],
) -> io::Result<()> {
    match turbo::encode(pattern, word, codeword) {
        Ok(()) => print_line(rt, block, pattern, codeword),
        Err(refusal) => println!(rt; "refused {}", refusal.number()),
    }
}

// The case of a word and a pattern, in as many bytes as the codeword has.
fn print_case(rt: &impl Print, pattern: u32, word: &[u8]) -> io::Result<()> {
    let block = patterns::block_by(PAYLOAD_WORD, SIGNALLING_WORD, word.len());
    let n = patterns::code_length(pattern as usize, block) / 8;
    if LONGEST < n {
        return Ok(());
    }
    let mut room = [0u8; LONGEST];
    print_coded(rt, block, pattern, word, &mut room[..n])
}

// The cases of a word under each pattern.
fn print_cases(rt: &impl Print, word: &[u8]) -> io::Result<()> {
    for pattern in 0..PATTERNS as u32 {
        print_case(rt, pattern, word)?;
    }
    Ok(())
}

fn main(rt: HostRuntime) -> io::Result<()> {
    let mut payload = [0u8; PAYLOAD_WORD];
    fill(&mut payload);
    clear_spare(&mut payload);
    print_cases(&rt, &payload)?;
    let mut signalling = [0u8; SIGNALLING_WORD];
    fill(&mut signalling);
    clear_spare(&mut signalling);
    print_case(&rt, 0, &signalling)
}
