// The tests 9, 10 and 11 of the lists that stand where a view says, in a word or in a sheet.
#![tactic(auto)]

ghost use Rattle.std.specs.Prelude.{◌≡◌, not, ◌%◌, eqb, ltb};
ghost use Rattle.ground.specs.Choice.{both};
ghost use Rattle.ground.specs.Refusals.{status};
ghost use Rattle.patterns.specs.Rates.{units_of};
ghost use Rattle.description.specs.Fields.{table16};
ghost use Rattle.description.specs.Tests.{width_fault};
ghost use Rattle.views.specs.Rows.{rows_at};
ghost use Rattle.faults.specs.Faults.{list_fault};

use ground::PATTERNS;
use ground::refusal::Refusal;
use records::Pipe;
use views::View;

// Whether the width of a payload pipe is no multiple of its codeword's.
#[tactic(auto, using(patterns::proofs::Rates::units_some))]
fn width_wrong(q: Pipe) -> bool
    ensures { result ≡ both (ltb q.pattern 28) (not (eqb (q.width % units_of q.pattern) 0)) }
{
    // 28 to 63 stand for no pattern, and are carried (document 01)
    let p = q.pattern as usize;
    p < PATTERNS && q.width % patterns::units(p) as u32 != 0
}

// 9: whether one of the p payload pipes at a place has such a width.
fn any_width_wrong(w: &[u8], at: u32, p: u8) -> bool
    ensures { result ≡ width_fault (rows_at table16 48 p w.now at) }
{
    (0..p).any(|i| width_wrong(records::pipe_at(w, at, i)))
}

// The three tests, and the first that finds something. All are made before one is answered, so that each stands alone. None looks at the sections, so that p
// and s are given and no Counts.
pub fn list_fault(w: &[u8], v: View, p: u8, s: u16) -> Result<(), Refusal>
    ensures { status result ≡ list_fault v p s w.now }
{
    let wide = any_width_wrong(w, v.pipes, p);
    let untapped = taps::any_taps_wrong(w, v, p);
    let twice = ids::id_twice(w, v.streams, s);
    if wide {
        return Err(Refusal::WidthNoMultiple);
    }
    if untapped {
        return Err(Refusal::Without32Taps);
    }
    if twice {
        return Err(Refusal::IdTwice);
    }
    Ok(())
}
