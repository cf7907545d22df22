// The taps of a pipe's disperser sections (table 19), and their intermediate lengths (clause 4.10.7).
// A pipe is lent as its record of six bytes and its sections of two bytes each, as they stand in a sheet. How many sections it has stands beside it:
// `total` and `lengths` are public, and promised of any number.
#![tactic(auto)]

ghost use Rattle.std.specs.Prelude.{◌≡◌, ◌^◌, ◌<◌, ◌≤◌};
ghost use Rattle.ground.specs.Table.{tab};
ghost use Rattle.bits.specs.Places.{field_at};
ghost use Rattle.tap_lengths.specs.Lengths.{tap_total, intermed_len};
ghost use Rattle.tap_lengths.specs.Sections.{section_at, sections_at};
ghost use Rattle.tap_lengths.specs.Inside.{Narrow, onward_of};

use ground::TAPS;
use views::{ABOVE, PIPE, SECTION};

// The first bit of the first section: six bytes, then four bits that are not looked at; and how far apart sections are.
const SECTIONS: usize = (PIPE + ABOVE) as usize;

const APART: usize = (SECTION + ABOVE) as usize;

// Num_Taps, Tap_Diff and Gap_Width of a section.
#[derive(Clone, Copy)]
pub struct Section {
    pub taps: u8,
    pub diff: u8,
    pub gap: u16,
}

// A tap on the way through the sections: its length, the taps left in its section with itself, their difference, and the next section.
#[derive(Clone, Copy)]
pub struct Tap {
    pub len: u16,
    pub left: u8,
    pub diff: u8,
    pub next: u8,
}

// A field of a few bits, as the byte that it fits.
fn small_field(pipe: &[u8], at: usize, width: usize) -> u8
    requires { width ≤ 8 }
    ensures { (result ≡ field_at pipe.now at width) × (result < 2 ^ width) }
{
    bits::field(pipe, at, width) as u8
}

// The section i of a pipe.
fn section_at(pipe: &[u8], i: u8) -> Section
    ensures { (result ≡ section_at pipe.now i) × (result.taps ≤ 32) × (result.diff ≤ 7) × (result.gap ≤ 31) }
{
    let at = SECTIONS + APART * i as usize;
    Section {
        taps: (small_field(pipe, at, 4) + 1) * 2,
        diff: small_field(pipe, at + 4, 3),
        gap: u16::from(small_field(pipe, at + 7, 5)),
    }
}

// How many taps n sections have together.
pub fn total(pipe: &[u8], n: u8) -> u32
    ensures { result ≡ tap_total (sections_at n pipe.now) }
{
    let mut taps = 0;
    for i in 0..n {
        taps += u32::from(section_at(pipe, i).taps);
    }
    taps
}

// The tap after a tap of n sections; behind the last one the length stays.
fn onward(pipe: &[u8], n: u8, t: Tap) -> Tap
    requires { Narrow t }
    ensures { result ≡ onward_of pipe.now n t }
{
    if 1 < t.left {
        Tap {
            len: t.len + u16::from(t.diff),
            left: t.left - 1,
            ..t
        }
    } else if t.next < n {
        let s = section_at(pipe, t.next);
        Tap {
            len: t.len + s.gap,
            left: s.taps,
            diff: s.diff,
            next: t.next + 1,
        }
    } else {
        t
    }
}

// The intermediate lengths of the first 32 taps of n sections, of which the first begins at 0.
pub fn lengths(pipe: &[u8], n: u8) -> [u16; TAPS]
    ensures { result ≡ tab (intermed_len (sections_at n pipe.now)) 0 32 }
{
    let mut lens = [0; TAPS];
    if n == 0 {
        return lens;
    }
    let s = section_at(pipe, 0);
    let mut t = Tap {
        len: 0,
        left: s.taps,
        diff: s.diff,
        next: 1,
    };
    for len in lens.iter_mut() {
        *len = t.len;
        t = onward(pipe, n, t);
    }
    lens
}
