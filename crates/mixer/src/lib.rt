// The mixer (clause 4.5): it re-orders the bits of a codeword.
#![tactic(auto)]

ghost use Rattle.std.specs.Prelude.{◌≡◌, ◌+◌, ◌*◌, ◌/◌, ◌%◌, ◌<◌, ◌≤◌, length};
ghost use Rattle.ground.specs.Outcome.{Is};
ghost use Rattle.ground.specs.Refusals.{status};
ghost use Rattle.bits.specs.Places.{bit_at, number, packed};
ghost use Rattle.mixer.specs.Mixer.{increment, mixed_from};
ghost use Rattle.mixer.specs.Mixing.{mixing};
ghost use Rattle.mixer.specs.Inside.{Round};

use ground::refusal::Refusal;
use ground::{PATTERNS, PAYLOAD_BLOCK, SIGNALLING_BLOCK};

// The bytes of the signalling codeword (clause 4.4.8).
const SIGNALLING_CODEWORD: usize = 480;

// CILM_Inc of the signalling codeword (clause 4.5).
const SIGNALLING_INCREMENT: u8 = 61;

// CILM_Inc by pattern number (table 12, by the pattern's code rate).
const INCREMENTS: [u8; PATTERNS] = [
    247, 245, 221, 197, 209, 185, 185, 179, 179, 167, 167, 167, 167, 157, 157, 157, 149, 149, 149,
    125, 125, 125, 139, 139, 139, 113, 113, 113,
];

// CILM_Inc of a pattern and a block of n bits.
fn increment(pattern: usize, n: usize) -> u8
    requires { pattern < 28 }
    ensures { (result ≡ increment pattern n) × (result < 256) }
{
    if n == SIGNALLING_BLOCK {
        SIGNALLING_INCREMENT
    } else {
        INCREMENTS[pattern]
    }
}

// A step on from a place of a codeword of len bits, round its end.
fn onward(at: usize, step: usize, len: usize) -> usize
    requires { (at < len) × (step ≤ len) × (len ≤ 61440) }
    ensures { (result ≡ (at + step) % len) × (result < len) }
{
    let next = at + step;
    if next < len { next } else { next - len }
}

// The eight bits that stand inc apart from a place on, round the end of the codeword.
// A bit is taken by hand: `bits::bit` asks at each whether the codeword goes so far, and `opl_mix` takes two fifths longer than it did (make bench).
fn mixed_byte(codeword: &[u8], inc: usize, at: usize) -> u8
    requires { Round inc codeword.now × (at < 8 * length codeword.now) }
    ensures { result ≡ number (λ i. bit_at codeword.now ((at + inc * i) % (8 * length codeword.now))) 0 8 }
{
    let len = 8 * codeword.len();
    let mut v = 0;
    let mut from = at;
    for _ in 0..8usize {
        v = v * 2 + (codeword[from / 8] >> (7 - from % 8)) % 2;
        from = onward(from, inc, len);
    }
    v
}

// Each bit of a codeword goes to its place. The places are added up, so that no bit costs a product or a remainder.
fn mix_bits(codeword: &[u8], inc: usize, out: &mut [u8])
    requires { Round inc codeword.now }
    ensures { out.new ≡ packed (λ i. bit_at codeword.now (mixed_from inc (8 * length codeword.now) i)) (length out.old) }
{
    let len = 8 * codeword.len();
    let mut at = 0;
    for byte in out.iter_mut() {
        *byte = mixed_byte(codeword, inc, at);
        at = onward(at, 8 * inc, len);
    }
}

// Mixes a codeword into the lent buffer; or says why not, and leaves the buffer as it was.
pub fn mix(pattern: u32, codeword: &[u8], out: &mut [u8]) -> Result<(), Refusal>
    ensures { Is (mixing pattern codeword.now out.old) (status result) out.new }
{
    let p = pattern as usize;
    if PATTERNS <= p {
        return Err(Refusal::PatternAbove27);
    }
    let n = patterns::block_by(
        patterns::code_length(p, PAYLOAD_BLOCK) / 8,
        SIGNALLING_CODEWORD,
        codeword.len(),
    );
    if patterns::unfit(p, n).is_err() || out.len() != codeword.len() {
        return Err(Refusal::FrameWrong);
    }
    mix_bits(codeword, usize::from(increment(p, n)), out);
    Ok(())
}
