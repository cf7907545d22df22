// What is looked at before a frame of a pipe is made.
#![tactic(auto)]

ghost use Rattle.std.specs.Prelude.{◌≡◌};
ghost use Rattle.ground.specs.Choice.{first_of};
ghost use Rattle.ground.specs.Refusals.{status};
ghost use Rattle.pipe_look.specs.Faults.{frame_faults};

use ground::refusal::{Refusal, status};
use ground::{CAPACITY_UNIT, PATTERNS};

// Why a frame of a pipe whose profile is not refused is not made, if so: by the greatest delay, its pattern and width, and the lengths that are lent.
pub fn look(
    greatest: u16,
    pattern: u32,
    width: u16,
    codewords: usize,
    memory: usize,
    out: usize,
) -> Result<(), Refusal>
    ensures { status result ≡ first_of (frame_faults 0 greatest pattern width codewords memory out) }
{
    let p = pattern as usize;
    if PATTERNS <= p {
        return Err(Refusal::PatternAbove27);
    }
    let size = width as usize * CAPACITY_UNIT;
    if width % patterns::units(p) as u16 != 0
        || codewords != size
        || memory != (greatest as usize + 1) * size
        || out != size
    {
        return Err(Refusal::FrameWrong);
    }
    Ok(())
}

// The refusal of a frame, with that of the pipe's profile before it: a number, 0 for none. What is handed on is any number, so the answer is one too.
pub fn refusal(
    profile: u8,
    greatest: u16,
    pattern: u32,
    width: u16,
    codewords: usize,
    memory: usize,
    out: usize,
) -> u8
    ensures { result ≡ first_of (frame_faults profile greatest pattern width codewords memory out) }
{
    if 0 < profile {
        return profile;
    }
    status(look(greatest, pattern, width, codewords, memory, out))
}
