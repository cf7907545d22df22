// The listing of a sheet (document 01, "Points on either side"), as text.
#![tactic(auto)]

ghost use Rattle.ground.specs.Outcome.{Is};
ghost use Rattle.bits.specs.Lists.{Below};
ghost use Rattle.text.specs.Answers.{told, listed};

use ground::refusal::Refusal;

// The room that a listing is lent; no text has more than 815 bytes.
pub const ROOM: usize = 1024;

// Why a sheet's lists are not listed: it is refused, and the text of so many bytes says so alone; or there is no room.
#[derive(Clone, Copy, Debug, PartialEq, Eq)]
pub enum Unlisted {
    Refused { refusal: Refusal, n: usize },
    NoRoom,
}

// Lists a sheet, of any length, into the front of a lent room of 1,024 bytes or more: the length of its text.
pub fn list(sheet: &[u8], out: &mut [u8]) -> Result<usize, Unlisted>
    ensures { Is (listed sheet.now out.old) (told result) out.new × Below 256 sheet.now }
{
    if out.len() < ROOM {
        return Err(Unlisted::NoRoom);
    }
    match forms::check(sheet) {
        Ok(counts) => Ok(lines::lines(sheet, counts, out)),
        Err(refusal) => {
            let n = words::line(out, 0, b"refused #\n", &[refusal.number() as u32]);
            Err(Unlisted::Refused { refusal, n })
        }
    }
}
