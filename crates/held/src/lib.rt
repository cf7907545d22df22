// What a place of the lane holds: the sum of its copies, clipped once (01, "Placement"; 02, 2026-08).
#![tactic(auto)]

ghost use Rattle.std.specs.Prelude.{◌≡◌, map, ◌≤◌, length};
ghost use Rattle.held.specs.Held.{run, sum, clip, held};

// The least and the greatest that a place holds: no value lacks its negative.
const LEAST: i16 = -127;

const GREATEST: i16 = 127;

// A sum clipped.
fn clip(sum: i16) -> i8
    ensures { result ≡ clip sum }
{
    sum.clamp(LEAST, GREATEST) as i8
}

// The sum of values, of which there are few enough that nothing wraps.
fn total(values: &[i8]) -> i16
    requires { length values.now ≤ 255 }
    ensures { result ≡ sum values.now }
{
    let mut sum = 0;
    for value in values {
        sum += i16::from(*value);
    }
    sum
}

// The sum of the n values from a place on; past the end there are none.
pub fn sum(values: &[i8], at: usize, n: u8) -> i16
    ensures { result ≡ sum (run values.now at n) }
{
    let rest = &values[at.min(values.len())..];
    let copies = &rest[..usize::from(n).min(rest.len())];
    total(copies)
}

// What a place holds whose copies are the n values from a place on: only their whole sum is clipped.
pub fn of(values: &[i8], at: usize, n: u8) -> i8
    ensures { result ≡ held (run values.now at n) }
{
    clip(sum(values, at, n))
}

// Each place clipped. It is a pass of its own, since the compiler makes vectors of it.
pub fn clip_all(lane: &mut [i8])
    ensures { lane.new ≡ map clip lane.old }
{
    for place in lane.iter_mut() {
        *place = clip(i16::from(*place));
    }
}
