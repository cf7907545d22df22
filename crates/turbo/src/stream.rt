// The code bits of a block, six bit periods at a time.
ghost use Rattle.std.specs.Prelude.{◌≡◌, ◌+◌, ◌*◌, ◌/◌, ◌<◌, ◌≤◌, length, get_or};
ghost use Rattle.ground.specs.Outcome.{Is};
ghost use Rattle.bits.specs.Places.{packed};
ghost use Rattle.patterns.specs.Blocks.{Coded};
ghost use Rattle.patterns.specs.Rows.{copies};
ghost use Rattle.patterns.specs.Sent.{places, total};
ghost use Rattle.interleaver.specs.Read.{interleaved};
ghost use Rattle.turbo.specs.Stream.{code_bit, chunked, thrice, Prepared, Sent};

use tables::{HALF, Plan};
use wide::Wide;

// The sink, and the registers of both encoders in one number.
#[derive(Clone, Copy)]
pub struct Coder {
    pub sink: Wide,
    pub both: usize,
}

// Three bytes as a number.
fn three(w: &[u8], i: usize) -> usize
    requires { i + 3 ≤ length w.now }
    ensures { result ≡ get_or w.now i 0 * 65536 + get_or w.now (i + 1) 0 * 256 + get_or w.now (i + 2) 0 }
{
    u32::from_be_bytes([0, w[i], w[i + 1], w[i + 2]]) as usize
}

// Six bit periods more, of the half h of the pattern's twelve groups: the six bits u of encoder 1 and v of encoder 2. The encoders are linear: what u, v and the
// registers give is the sum of what each gives by itself. The half is a number, by which `plan_of` counts the entries.
fn chunk(out: &mut [u8], plan: &Plan, h: usize, c: Coder, u: usize, v: usize) -> Coder
    requires { (h < 2) × (u < 64) × (v < 64) × (c.both < 64) }
    ensures { Is (chunked out.old plan.now h c u v) result out.new }
{
    let o = HALF * h;
    let k = if h == 0 { plan.k0 } else { plan.k1 };
    let z = plan.look[o + 128 + u] ^ plan.look[o + 64 + v] ^ plan.look[o + c.both];
    let sink = wide::put(out, c.sink, z / 64, k);
    Coder {
        sink,
        both: (z % 64) as usize,
    }
}

// Eighteen bit periods more, of the upper 18 of the 24 bits x of encoder 1 and y of encoder 2: half 0 of the pattern's twelve groups, half 1, and half 0 again.
// The hint is for the two places that call it: without it, the encoder is an eighth slower.
#[inline(always)]
fn eighteen(out: &mut [u8], plan: &Plan, c: Coder, x: usize, y: usize) -> Coder
    requires { c.both < 64 }
    ensures { Is (thrice out.old plan.now c x y) result out.new }
{
    let c1 = chunk(out, plan, 0, c, x / 262144 % 64, y / 262144 % 64);
    let c2 = chunk(out, plan, 1, c1, x / 4096 % 64, y / 4096 % 64);
    chunk(out, plan, 0, c2, x / 64 % 64, y / 64 % 64)
}

// All groups of the data: 24 to three bytes, and of the last three bytes 18.
fn send(out: &mut [u8], word: &[u8], second: &[u8], pattern: usize, n: usize, plan: &Plan) -> Coder
    requires { Prepared pattern n word.now second.now plan.now × (total (copies pattern n) (places n) ≡ 8 * length out.old) }
    ensures { Sent pattern n word.now out.new result (n / 6) × (length out.new ≡ length out.old) }
{
    let mut c = Coder {
        sink: Wide::new(0),
        both: 0,
    };
    let last = n / 24;
    for i in 0..last {
        let x = three(word, 3 * i);
        let y = three(second, 3 * i);
        c = eighteen(out, plan, c, x, y);
        c = chunk(out, plan, 1, c, x % 64, y % 64);
    }
    let x = three(word, 3 * last);
    let y = three(second, 3 * last);
    eighteen(out, plan, c, x, y)
}

// The codeword of a block of n bits: what the pattern sends of its data, and of the tail behind them. It has whole words of four bytes, so that nothing is left in the sink.
pub fn code(pattern: usize, n: usize, word: &[u8], second: &[u8], out: &mut [u8])
    requires { Coded pattern n × (8 * length word.now ≡ n + 6) × (second.now ≡ interleaved n word.now) × (total (copies pattern n) (places n) ≡ 8 * length out.old) }
    ensures { out.new ≡ packed (code_bit pattern n word.now) (length out.old) }
{
    let rows = puncturing::entries(pattern);
    let mut plan = Plan::EMPTY;
    tables::plan_into(&rows, &mut plan);
    let c = send(out, word, second, pattern, n, &plan);
    let tail = tail::run_of(&rows, c.both);
    wide::put(out, c.sink, tail.value, tail.bits);
}
