// Slots, taps and collector (clauses 4.6 to 4.8): which unit of which frame stands where in a pipe.
#![tactic(auto)]

ghost use Rattle.std.specs.Prelude.{◌≡◌};
ghost use Rattle.ground.specs.Table.{tab};
ghost use Rattle.slots.specs.Disperser.{tap_delay};
ghost use Rattle.slots.specs.Collector.{unit_for};

use ground::TAPS;

// The receiver's 32 tap lengths, with the greatest delay beside them.
#[repr(C)]
#[derive(Clone, Copy)]
pub struct Profile {
    pub taps: [u16; TAPS],
    pub greatest: u16,
}

// What a pipe's frames are made by: the profile, Regrouping_Flag, Pipe_Width_Slots and IU_Per_CW.
#[repr(C)]
#[derive(Clone, Copy)]
pub struct Way {
    pub profile: Profile,
    // the flag's number and no bool: `way_of` (crate pipe, specs/Frame.antt) has the field of table 16 here, and `place_of` tests it for 0
    pub regrouping: u8,
    pub slots: u16,
    pub units: u8,
}

// Tap_Delay (clause 4.10.7): our delays, of which the receiver's taps make up the greatest.
pub fn tap_delays(p: Profile) -> [u16; TAPS]
    ensures { result ≡ tab (tap_delay p) 0 32 }
{
    p.taps.map(|t| p.greatest.saturating_sub(t))
}

// The unit of a frame of mixed codewords, counted over all slots, that is read for a place of the pipe's frame.
// It takes the three numbers of a way that it looks at, and asks for no profile. A bool for the flag would ask more of callers: `unit_for` says what is read for any number.
pub fn unit_for(regrouping: u8, slots: u16, units: u8, place: u32) -> usize
    ensures { result ≡ unit_for regrouping slots units place }
{
    let n = slots as usize;
    let j = place as usize;
    if regrouping == 0 || n == 0 {
        j
    } else {
        j % n * units as usize + j / n
    }
}
