// A pipe of one frame, ready for the modulator (clauses 4.5 to 4.8): its codewords mixed, dispersed and collected.
#![tactic(auto)]

ghost use Rattle.std.specs.Prelude.{◌≡◌, ◌*◌};
ghost use Rattle.std.proofs.Math.Seq.{paste};
ghost use Rattle.ground.specs.Outcome.{Is};
ghost use Rattle.ground.specs.Refusals.{status};
ghost use Rattle.bits.specs.Lists.{Below};
ghost use Rattle.mixer.specs.Mixing.{codeword_bytes};
ghost use Rattle.pipe.specs.Frame.{mixed_frame};
ghost use Rattle.pipe.specs.Piping.{piping};
ghost use Rattle.pipe.specs.Inside.{Takes};

use ground::refusal::Refusal;
use ground::{CAPACITY_UNIT, PAYLOAD_BLOCK};
use slots::Way;

// The interleaver units of a capacity unit (clause 4.6).
const INTERLEAVER_UNITS: u8 = 4;

// The codewords of a frame, each mixed, go into the ring from a place on.
fn take(pattern: u32, slots: usize, codewords: &[u8], ring: &mut [u8], at: usize)
    requires { Takes pattern slots codewords.now ring.old at }
    ensures { ring.new ≡ paste ring.old at (mixed_frame pattern slots codewords.now) (slots * codeword_bytes pattern) }
{
    let size = patterns::code_length(pattern as usize, PAYLOAD_BLOCK) / 8;
    for w in 0..slots {
        let from = w * size;
        let room = at + from;
        mixer::mix(
            pattern,
            &codewords[from..from + size],
            &mut ring[room..room + size],
        )
        .unwrap();
    }
}

// Takes the codewords of a frame into the lent memory and fills the frame of the pipe out of it; or says why not, and leaves both as they were.
// That the codewords are bytes is stated too: the way back needs it.
pub fn write(
    pipe: &[u8],
    frame: u32,
    codewords: &[u8],
    memory: &mut [u8],
    out: &mut [u8],
) -> Result<(), Refusal>
    ensures { Is (piping pipe.now frame codewords.now memory.old out.old) (status result) (memory.new, out.new) × Below 256 codewords.now }
{
    let profile = profile::of(pipe)?;
    let q = records::pipe_at(pipe, 0, 0);
    pipe_look::look(
        profile.greatest,
        q.pattern,
        q.width as u16,
        codewords.len(),
        memory.len(),
        out.len(),
    )?;
    let units = patterns::units(q.pattern as usize);
    let slots = q.width / units as u32;
    let row = frame as usize % (profile.greatest as usize + 1);
    take(
        q.pattern,
        slots as usize,
        codewords,
        memory,
        row * (q.width as usize * CAPACITY_UNIT),
    );
    let way = Way {
        profile,
        regrouping: bits::field(pipe, 25, 1) as u8, // Regrouping_Flag (table 16)
        slots: slots as u16,
        units: INTERLEAVER_UNITS * units,
    };
    disperser::disperse(way, frame, memory, out);
    Ok(())
}
