// Dispersers and collector (clauses 4.7 and 4.8): a pipe's frame, read out of the ring of the frames so far.
#![tactic(auto)]

ghost use Rattle.std.specs.Prelude.{◌≡◌, ◌+◌, ◌-◌, ◌%◌, ◌<◌, ◌≤◌};
ghost use Rattle.ground.specs.Table.{tab};
ghost use Rattle.slots.specs.Slots.{frame_bytes};
ghost use Rattle.slots.specs.Ring.{byte_from, dispersing};
ghost use Rattle.disperser.specs.Inside.{Gathers};

use ground::TAPS;
use slots::Way;

// The bytes of an interleaver unit: 512 bits (clause 4.6).
const UNIT: usize = 64;

// The row of the frame that lies d before f.
fn row_back(depth: usize, f: usize, d: usize) -> usize
    requires { (d < depth) × (depth ≤ 65536) × (f < 4294967296) }
    ensures { (result ≡ (f + depth - d) % depth) × (result < depth) }
{
    (f + (depth - d)) % depth
}

// The pipe's frame f, unit by unit out of the ring.
fn collect(y: &Way, delays: &[u16; TAPS], f: usize, ring: &[u8], out: &mut [u8])
    requires { Gathers y.now delays.now f ring.now out.old }
    ensures { out.new ≡ tab (byte_from y.now f ring.now) 0 (frame_bytes y.now) }
{
    let units = y.units as usize;
    let whole = y.slots as usize * units;
    let depth = y.profile.greatest as usize + 1;
    for j in 0..whole {
        let at = slots::unit_for(y.regrouping, y.slots, y.units, j as u32);
        let row = row_back(depth, f, delays[at % units % TAPS] as usize);
        let from = (row * whole + at) * UNIT;
        byte_runs::copy(&ring[from..from + UNIT], out, j * UNIT);
    }
}

// The pipe's frame out of the ring whose newest frame has this number. Where the ring or the frame has not its size, nothing is touched.
pub fn disperse(y: Way, frame: u32, ring: &[u8], out: &mut [u8])
    ensures { out.new ≡ dispersing y frame ring.now out.old }
{
    let size = y.slots as usize * y.units as usize * UNIT;
    let frames = y.profile.greatest as usize + 1;
    if out.len() == size && ring.len() == frames * size {
        collect(&y, &slots::tap_delays(y.profile), frame as usize, ring, out);
    }
}
