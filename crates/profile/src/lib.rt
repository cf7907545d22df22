// The disperser's profile of a pipe (clause 4.10.7). The pipe is lent as its record of six bytes and its sections of two bytes each, as they stand in a sheet.
#![tactic(auto)]

ghost use Rattle.std.specs.Prelude.{◌≡◌, ◌-◌, ◌≤◌, ◌<◌, length};
ghost use Rattle.ground.specs.Choice.{choose};
ghost use Rattle.ground.specs.Outcome.{Is};
ghost use Rattle.ground.specs.Refusals.{status};
ghost use Rattle.tap_lengths.specs.Sections.{sections_at};
ghost use Rattle.profile.specs.Profile.{tap_length_by, profile_of};
ghost use Rattle.profile.specs.Lent.{lent_fields, told, profiled, numbers_of, profiling};

use ground::TAPS;
use ground::refusal::Refusal;
use slots::Profile;

// The bytes of a pipe's record (table 16), and of a section as it stands in a sheet.
const RECORD: usize = (views::PIPE / 8) as usize;

const SECTION: usize = ((views::SECTION + views::ABOVE) / 8) as usize;

// The numbers of a profile that is handed out: a length for each tap and the greatest delay.
const NUMBERS: usize = TAPS + 1;

// Tap_Length by the multipliers' fields: the fraction first, rounded down.
fn tap_length(int: u32, fract: u32, len: u16) -> u16
    requires { (int < 16) × (fract < 16) × (len ≤ 4095) }
    ensures { result ≡ tap_length_by int fract len }
{
    ((int + 1) * (len as u32 * (fract + 1) / 16)) as u16
}

// The element that comes to place k where the vector is flipped.
fn flipped(inv: bool, k: usize) -> usize
    requires { k < 32 }
    ensures { (result ≡ choose inv (31 - k) k) × (result < 32) }
{
    if inv { 31 - k } else { k }
}

// The profile of a pipe with n sections.
fn made(pipe: &[u8], n: u8) -> Profile
    ensures { result ≡ profile_of (lent_fields pipe.now) (sections_at n pipe.now) }
{
    let lens = tap_lengths::lengths(pipe, n);
    // Disperser_Inv_Flag, Tap_Diff_Mult_Int_1 and Tap_Diff_Mult_Fract_1_16 (table 16)
    let inv = bits::field(pipe, 24, 1) != 0;
    let int = bits::field(pipe, 36, 4);
    let fract = bits::field(pipe, 40, 4);
    let mut taps = [0; TAPS];
    for (k, tap) in taps.iter_mut().enumerate() {
        let j = flipped(inv, k);
        *tap = tap_length(int, fract, lens[8 * (j % 4) + j / 4]);
    }
    Profile {
        taps,
        greatest: tap_length(int, fract, lens[31]),
    }
}

// The profile of a pipe as it is lent, or why it has none.
pub fn of(pipe: &[u8]) -> Result<Profile, Refusal>
    ensures { told result ≡ profiled pipe.now }
{
    let n = records::pipe_at(pipe, 0, 0).d as u8;
    if pipe.len() != RECORD + SECTION * n as usize || tap_lengths::total(pipe, n) != TAPS as u32 {
        return Err(Refusal::ProfileWrong);
    }
    Ok(made(pipe, n))
}

// The profile's numbers into the lent ones.
fn put(p: Profile, out: &mut [u16])
    requires { length out.old ≡ 33 }
    ensures { out.new ≡ numbers_of p }
{
    out[..TAPS].copy_from_slice(&p.taps);
    out[TAPS] = p.greatest;
}

// Writes the profile of a pipe into the lent numbers; or says why not, and leaves them as they were.
pub fn write(pipe: &[u8], out: &mut [u16]) -> Result<(), Refusal>
    ensures { Is (profiling pipe.now out.old) (status result) out.new }
{
    let p = of(pipe)?;
    if out.len() != NUMBERS {
        return Err(Refusal::LengthWrong);
    }
    put(p, out);
    Ok(())
}
