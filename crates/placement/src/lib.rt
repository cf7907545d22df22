// Placement: received values go to the places of the encoder's output from which they were sent (clauses 4.4.2 and 4.4.3).
#![tactic(auto)]

ghost use Rattle.std.specs.Prelude.{◌≡◌, [], ◌∷◌, ◌+◌, ◌*◌, ◌<◌, ◌≤◌, length, take};
ghost use Rattle.ground.specs.Outcome.{Is};
ghost use Rattle.ground.specs.Refusals.{status};
ghost use Rattle.patterns.specs.Rows.{digit};
ghost use Rattle.patterns.specs.Sent.{places, total};
ghost use Rattle.placement.specs.Place.{held, placing};
ghost use Rattle.placement.specs.Inside.{Once, placed_group, Placeable, Placed};

use ground::refusal::Refusal;
use puncturing::{DATA_ENTRIES, TAIL_PLACES};

// What a place holds that is sent at most once: its value, or nothing. It multiplies, since a branch on a row's digits would be mispredicted too often.
fn once(value: i8, n: u8) -> i16
    requires { n < 2 }
    ensures { result ≡ held (take n (value ∷ [])) }
{
    i16::from(value) * i16::from(n)
}

// The five places of a data group, from the place k on; returns the next value's place. A value follows the group's: the tail's.
fn place_group(values: &[i8], at: usize, counts: u16, lane: &mut [i16], k: usize) -> usize
    requires { (at + total (digit counts) 5 < length values.now) × (k + 5 ≤ length lane.old) × Once counts }
    ensures { Is (placed_group values.now at counts lane.old k 5) result lane.new }
{
    let mut v = at;
    for j in 0..5 {
        let n = puncturing::digit(counts, j);
        lane[k + j] = once(values[v], n);
        v += usize::from(n);
    }
    v
}

// The last of the data's entries. The loop below goes by it, and not by their number, since `opl_place` is a sixth slower by that than it was (make bench).
const LAST_DATA: usize = 11;

// The places of the data's n groups; returns the next value's place.
fn place_data(pattern: usize, n: usize, values: &[i8], lane: &mut [i16]) -> usize
    requires { Placeable pattern n values.now lane.old }
    ensures { Placed pattern n values.now lane.new result (5 * n) }
{
    let entries = puncturing::entries(pattern);
    let mut at = 0;
    let mut j = 0;
    for i in 0..n {
        at = place_group(values, at, entries[j], lane, 5 * i);
        j = if j == LAST_DATA { 0 } else { j + 1 };
    }
    at
}

// The places of the tail, the data's being placed.
fn place_tail(pattern: usize, n: usize, values: &[i8], at: usize, lane: &mut [i16])
    requires { Placeable pattern n values.now lane.old × Placed pattern n values.now lane.old at (5 * n) }
    ensures { Placed pattern n values.now lane.new (length values.now) (places n) }
{
    let entries = puncturing::entries(pattern);
    let mut v = at;
    for k in 0..TAIL_PLACES {
        let c = puncturing::digit(entries[DATA_ENTRIES + k / 5], k % 5);
        lane[5 * n + k] = held::sum(values, v, c);
        v += usize::from(c);
    }
}

// The places of the two lanes (01): 5 x (N + 6).
const PAYLOAD_LANE: usize = 61440;

const SIGNALLING_LANE: usize = 3840;

// Places one value for each code bit into the lent lane; or says why not, and leaves the lane as it was.
pub fn place(pattern: u32, values: &[i8], lane: &mut [i16]) -> Result<(), Refusal>
    ensures { Is (placing pattern values.now lane.old) (status result) lane.new }
{
    let p = pattern as usize;
    let n = patterns::block_by(PAYLOAD_LANE, SIGNALLING_LANE, lane.len());
    patterns::unfit(p, n)?;
    if values.len() != patterns::code_length(p, n) {
        return Err(Refusal::LengthWrong);
    }
    let at = place_data(p, n, values, lane);
    place_tail(p, n, values, at, lane);
    Ok(())
}
