// Forms of a sheet (document 01): its records judged over counts that are given, and the whole judged over those that its header states.
#![tactic(auto)]

pub mod judge;

ghost use Rattle.std.specs.Prelude.{◌≡◌};
ghost use Rattle.bits.specs.Lists.{Below};
ghost use Rattle.description.specs.Form1.{checked};
ghost use Rattle.sheets.specs.Answers.{told};

use ground::refusal::Refusal;
use views::{Counts, FORM1};

// Judges a sheet of form 1, of any length, in the order from sheet to word: 12 14 6 13 7 9 10 11.
pub fn check(sheet: &[u8]) -> Result<Counts, Refusal>
    ensures { (told result ≡ checked sheet.now) × Below 256 sheet.now }
{
    if headers::header_wrong(sheet, FORM1) {
        return Err(Refusal::HeaderWrong);
    }
    let counts = Counts {
        p: bits::byte(sheet, 0),
        s: bits::byte(sheet, 1) as u16,
        d: bits::byte(sheet, 2) as u16,
    };
    judge::record_fault(sheet, FORM1, counts)?;
    Ok(counts)
}
