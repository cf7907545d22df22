// The survey of a signalling word: all its tests, in the reader's order: 1 2 5 6 7 8 9 10 11.
#![tactic(auto)]

ghost use Rattle.std.specs.Prelude.{◌≡◌, ◌*◌, ◌≤◌, length};
ghost use Rattle.std.proofs.Math.Seq.{slice};
ghost use Rattle.bits.specs.Lists.{unpack};
ghost use Rattle.description.specs.Tests.{any_set};
ghost use Rattle.sheets.specs.Answers.{told};
ghost use Rattle.survey.specs.Survey.{surveyed_word};

use ground::refusal::Refusal;
use ground::{SIGNALLING_BLOCK, SIGNALLING_LISTS, SIGNALLING_WORD};
use views::Counts;

// The bits of the CRC (table 14).
const CRC: usize = 12;

// Whether a bit from one place up to another is set.
fn any_set(word: &[u8], from: usize, to: usize) -> bool
    requires { (from ≤ to) × (to ≤ 8 * length word.now) }
    ensures { result ≡ any_set (slice from to (unpack word.now)) }
{
    (from..to).any(|i| bits::bit(word, i) != 0)
}

// The counts of a word, or the first test that finds something.
pub fn survey(word: &[u8]) -> Result<Counts, Refusal>
    ensures { told result ≡ surveyed_word word.now }
{
    if word.len() != SIGNALLING_WORD {
        return Err(Refusal::LengthWrong);
    }
    if any_set(word, SIGNALLING_BLOCK, 8 * SIGNALLING_WORD) {
        return Err(Refusal::SpareSet);
    }
    let sent = bits::field(word, SIGNALLING_LISTS, CRC);
    let crc = crc::crc12(word, 0, SIGNALLING_LISTS) as u32;
    if sent != crc {
        return Err(Refusal::CrcWrong);
    }
    let t = walk::tour(word);
    if t.version != 0 {
        return Err(Refusal::VersionNot0);
    }
    let end = t.end as usize;
    if SIGNALLING_LISTS < end {
        return Err(Refusal::ListsPass750);
    }
    if any_set(word, end, SIGNALLING_LISTS) {
        return Err(Refusal::PaddingSet);
    }
    let Counts { p, s, d: _ } = t.counts;
    faults::list_fault(word, views::of_word(p, s), p, s)?;
    Ok(t.counts)
}
