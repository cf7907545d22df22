// Bytes in lent memory: a copy of a run to a place, also by places in bits, and one byte from a place on; and the number in two bytes.
#![tactic(auto)]

ghost use Rattle.std.specs.Prelude.{◌≡◌, ◌+◌, ◌*◌, ◌/◌, ◌<◌};
ghost use Rattle.byte_runs.specs.Runs.{copied, run_of, filled_from};

// The bytes of a run to a place of out; where they do not fit there, nothing is touched.
pub fn copy(run: &[u8], out: &mut [u8], at: usize)
    ensures { out.new ≡ copied run.now out.old at }
{
    if at <= out.len() && run.len() <= out.len() - at {
        // no copy_from_slice: of two lent slices, and so many bytes as are known at run time alone, it is memmove, which opl.h does not ask for
        for i in 0..run.len() {
            out[at + i] = run[i];
        }
    }
}

// The run from the byte of one bit place of w to that of another, as much of it as there is, to the byte of a bit place of out; where it does not fit there,
// nothing is touched.
pub fn copy_between(w: &[u8], from: u32, until: u32, out: &mut [u8], to: u32)
    ensures { out.new ≡ copied (run_of w.now from until) out.old (to / 8) }
{
    let until = w.len().min((until / 8) as usize);
    let from = until.min((from / 8) as usize);
    copy(&w[from..until], out, (to / 8) as usize);
}

// One byte from a place of out to its end; where the place is past the end, nothing is touched.
pub fn fill(out: &mut [u8], at: usize, byte: u8)
    ensures { out.new ≡ filled_from out.old at byte }
{
    if at < out.len() {
        out[at..].fill(byte);
    }
}

// The number in two bytes, the higher one first. That both are bytes is stated too: it bounds the number where one is read of memory.
pub fn two(high: u8, low: u8) -> usize
    ensures { (result ≡ high * 256 + low) × (high < 256) × (low < 256) }
{
    usize::from(u16::from_be_bytes([high, low]))
}
