// From signalling word to sheet (clause 4.10).
#![tactic(auto)]

mod fill;

ghost use Rattle.ground.specs.Outcome.{Is};
ghost use Rattle.bits.specs.Lists.{Below};
ghost use Rattle.description.specs.Word.{reading};
ghost use Rattle.sheets.specs.Answers.{told};

use ground::refusal::Refusal;
use views::Counts;

// The room that a reader is lent (01): an accepted word's sheet has at most 121 bytes.
const ROOM: usize = 128;

// Reads a signalling word of 96 bytes into the front of a lent sheet of 128 bytes or more.
pub fn read(word: &[u8], sheet: &mut [u8]) -> Result<Counts, Refusal>
    ensures { Is (reading word.now sheet.old) (told result) sheet.new × Below 256 word.now }
{
    if sheet.len() < ROOM {
        return Err(Refusal::LengthWrong);
    }
    let counts = survey::survey(word)?;
    fill::fill(word, counts, sheet);
    Ok(counts)
}
