// The start-of-frame preamble (clause 4.10.1.2), upright or inverted, written; crate preamble_form tells the two from other bytes.
#![tactic(auto)]

pub mod sof;

ghost use Rattle.ground.specs.Outcome.{Is};
ghost use Rattle.ground.specs.Refusals.{status};
ghost use Rattle.preamble.specs.Preamble.{written};

use crate::sof::PREAMBLE;
use ground::refusal::Refusal;

// Writes the preamble that is due into 32 bytes; refuses any other length and touches nothing.
// A bool and no enum, as `due` of the definitions takes one.
pub fn write(inverted: bool, out: &mut [u8]) -> Result<(), Refusal>
    ensures { Is (written inverted out.old) (status result) out.new }
{
    if out.len() != PREAMBLE {
        return Err(Refusal::LengthWrong);
    }
    out.copy_from_slice(&sof::due(inverted));
    Ok(())
}
