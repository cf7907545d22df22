// From sheet to signalling word (clause 4.10).
#![tactic(auto)]

mod lay;

ghost use Rattle.ground.specs.Outcome.{Is};
ghost use Rattle.ground.specs.Refusals.{status};
ghost use Rattle.bits.specs.Lists.{Below};
ghost use Rattle.description.specs.Form1.{writing};

use ground::SIGNALLING_WORD;
use ground::refusal::Refusal;

// Writes the signalling word of a sheet into 96 bytes.
pub fn write(sheet: &[u8], word: &mut [u8]) -> Result<(), Refusal>
    ensures { Is (writing sheet.now word.old) (status result) word.new × Below 256 sheet.now }
{
    let Some(word) = word.as_mut_array::<SIGNALLING_WORD>() else {
        return Err(Refusal::LengthWrong);
    };
    let counts = forms::check(sheet)?;
    lay::lay(word, sheet, counts);
    Ok(())
}
