// The turbo encoder (clauses 4.4.2 to 4.4.5).
#![tactic(auto)]

mod stream;

ghost use Rattle.std.specs.Prelude.{◌≡◌, ◌≤◌};
ghost use Rattle.ground.specs.Choice.{first_of};
ghost use Rattle.ground.specs.Outcome.{Is};
ghost use Rattle.ground.specs.Refusals.{status};
ghost use Rattle.turbo.specs.Encode.{faults, encoded};

use ground::refusal::Refusal;
use ground::{PAYLOAD_WORD, SIGNALLING_WORD};

// Whether a word of a block of n bits is coded into so many bytes, or why not.
fn refusal(pattern: usize, n: usize, word: &[u8], bytes: usize) -> Result<(), Refusal>
    requires { n ≤ 12282 }
    ensures { status result ≡ first_of (faults pattern n word.now bytes) }
{
    patterns::unfit(pattern, n)?;
    if bytes != patterns::code_length(pattern, n) / 8 {
        return Err(Refusal::LengthWrong);
    }
    if bits::field(word, n, 6) != 0 {
        return Err(Refusal::SpareSet);
    }
    Ok(())
}

// Codes an infoword under a pattern into the lent codeword; or says why not, and leaves the codeword as it was.
pub fn encode(pattern: u32, infoword: &[u8], codeword: &mut [u8]) -> Result<(), Refusal>
    ensures { Is (encoded pattern infoword.now codeword.old) (status result) codeword.new }
{
    let p = pattern as usize;
    let n = patterns::block_by(PAYLOAD_WORD, SIGNALLING_WORD, infoword.len());
    refusal(p, n, infoword, codeword.len())?;
    let mut second = [0u8; PAYLOAD_WORD];
    interleaver::interleave(n, infoword, &mut second);
    stream::code(p, n, infoword, &second, codeword);
    Ok(())
}
