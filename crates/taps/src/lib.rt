// The test 10: the taps of payload pipes, whose sections stand where a view says, in a word or in a sheet.
#![tactic(auto)]

ghost use Rattle.std.specs.Prelude.{◌≡◌, not, ◌^◌, ◌<◌, eqb};
ghost use Rattle.ground.specs.Choice.{both};
ghost use Rattle.bits.specs.Places.{fields_at};
ghost use Rattle.description.specs.Rows.{total};
ghost use Rattle.description.specs.Fields.{table16};
ghost use Rattle.description.specs.Description.{own_sections};
ghost use Rattle.description.specs.Tests.{taps_of, tap_fault};
ghost use Rattle.views.specs.Rows.{rows_at};

use ground::TAPS;
use records::Pipe;
use views::View;

// The taps of n sections, so many bits apart, whose first stands at a place. `tap_lengths::total` adds up alike, of a pipe as it is lent: one function for both would be public,
// and a public function may not ask that no place wraps, as this one does.
#[tactic(auto, using(bits::proofs::Places::field_lt))]
fn taps_at(w: &[u8], at: usize, apart: u32, n: u16) -> u32
    requires { at < 2 ^ 63 }
    ensures { result ≡ total taps_of (fields_at w.now at apart 4 n) }
{
    let mut taps = 0;
    for k in 0..n {
        // Num_Taps_Div2_1 (table 19)
        let half = bits::field(w, at + apart as usize * k as usize, 4) + 1;
        taps += half * 2;
    }
    taps
}

// Whether a payload pipe whose sections begin at a place is in use without 32 taps.
fn taps_wrong(w: &[u8], q: Pipe, at: usize, apart: u32) -> bool
    requires { at < 2 ^ 63 }
    ensures { result ≡ both (not (eqb q.width 0)) (not (eqb (total taps_of (fields_at w.now at apart 4 q.d)) 32)) }
{
    q.width != 0 && taps_at(w, at, apart, q.d) != TAPS as u32
}

// 10: whether one of the p payload pipes is in use without 32 taps; their sections stand in the order of the pipes.
pub fn any_taps_wrong(w: &[u8], v: View, p: u8) -> bool
    ensures { result ≡ tap_fault (rows_at table16 48 p w.now v.pipes) (fields_at w.now v.sections v.apart 4 (total own_sections (rows_at table16 48 p w.now v.pipes))) }
{
    let mut from = v.sections as usize;
    for i in 0..p {
        let q = records::pipe_at(w, v.pipes, i);
        if taps_wrong(w, q, from, v.apart) {
            return true;
        }
        from += v.apart as usize * q.d as usize;
    }
    false
}
