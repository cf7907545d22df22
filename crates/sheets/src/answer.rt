// What is said of a word or of a sheet that was judged, by its number: the counts of its lists, or the refusal.
ghost use Rattle.std.specs.Prelude.{◌≡◌};
ghost use Rattle.sheets.specs.Answers.{told_by};

use views::Counts;

// The number of an answer, 0 where it accepts. It stands beside ground's `status` since it takes any number for a refusal, not the 21 alone.
pub fn number(answer: Result<Counts, u8>) -> u8
    ensures { result ≡ (told_by answer).number }
{
    match answer {
        Ok(_) => 0,
        Err(n) => n,
    }
}
