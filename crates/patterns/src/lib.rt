// The puncturing patterns of the turbo code.
#![tactic(auto)]

ghost use Rattle.std.specs.Prelude.{◌≡◌, ltb};
ghost use Rattle.ground.specs.Choice.{choose, first_of};
ghost use Rattle.ground.specs.Refusals.{status};
ghost use Rattle.patterns.specs.Rates.{units_of};
ghost use Rattle.patterns.specs.Blocks.{block_by, unpaired, block_faults};
ghost use Rattle.patterns.specs.Sent.{code_length};

use ground::refusal::Refusal;
use ground::{PATTERNS, PAYLOAD_BLOCK, SIGNALLING_BLOCK};

// 6 divided by the rate, by pattern number (table 13, CU_Per_CW).
const UNITS: [u8; PATTERNS] = [
    30, 27, 24, 21, 20, 18, 18, 16, 16, 15, 15, 14, 14, 12, 12, 12, 10, 10, 10, 9, 9, 9, 8, 8, 8,
    7, 7, 7,
];

// The capacity units of a pattern's codeword; 0 for a number that names no pattern.
// It is no Option: it answers for every number, as `units_of` of specs/Rates.antt does, and whoever calls it has tested the number before, or multiplies by the 0.
pub fn units(pattern: usize) -> u8
    ensures { result ≡ units_of pattern }
{
    UNITS.get(pattern).copied().unwrap_or(0)
}

// The length in bits of the codeword of a block of n bits; 0 for a number that names no pattern, and for a block that is longer than the payload's.
// It is no Option: it answers for every number, as `code_length` of specs/Sent.antt does, and whoever calls it has tested the number before.
pub fn code_length(pattern: usize, n: usize) -> usize
    ensures { result ≡ choose (ltb 12282 n) 0 (code_length pattern n) }
{
    if n <= PAYLOAD_BLOCK {
        (n + 6) * units(pattern) as usize / 6
    } else {
        0
    }
}

// The bits of the block that a length tells, 0 where there is no such block.
// It is no Option: the 0 of `block_by` (specs/Blocks.antt) goes on to `unfit`, and is what `block_faults` refuses with 1.
pub fn block_by(payload: usize, signalling: usize, len: usize) -> usize
    ensures { result ≡ block_by payload signalling len }
{
    if len == payload {
        return PAYLOAD_BLOCK;
    }
    if len == signalling {
        return SIGNALLING_BLOCK;
    }
    0
}

// The block of 762 bits with a pattern other than 0.
fn unpaired(pattern: usize, n: usize) -> bool
    ensures { result ≡ unpaired pattern n }
{
    n == SIGNALLING_BLOCK && 0 < pattern
}

// Pattern and n stay two numbers, here and in the crates above: a struct of both would be taken apart at each call of the public functions, whose parameters are promised.
// Whether a block of n bits is coded under a pattern, or why not: 1 where there is no block, 3 for a number above 27, 4 for the block of 762 bits with a pattern other than 0.
pub fn unfit(pattern: usize, n: usize) -> Result<(), Refusal>
    ensures { status result ≡ first_of (block_faults pattern n) }
{
    if n == 0 {
        return Err(Refusal::LengthWrong);
    }
    if PATTERNS <= pattern {
        return Err(Refusal::PatternAbove27);
    }
    if unpaired(pattern, n) {
        return Err(Refusal::PatternNot0);
    }
    Ok(())
}
