// The tables of a half, by the six bits of each encoder and by the registers.
ghost use Rattle.std.specs.Prelude.{◌≡◌, ◌+◌, ◌*◌, ◌<◌, ◌≤◌, ◌++◌, length, take, drop, map, get_or};
ghost use Rattle.std.specs.Int.Bits.{bit_xor};
ghost use Rattle.patterns.specs.Sent.{total};
ghost use Rattle.constituent.specs.Six.{impulses};
ghost use Rattle.tables.specs.Plan.{half_at};
ghost use Rattle.tables.specs.Tables.{Light, sums, weighed, half_look};

use crate::weights::{weigh, weights_of};

// The entries of a half.
pub const HALF: usize = 192;

// The first n entries once more behind them, each with g added.
fn double(t: &mut [u64], n: usize, g: u64)
    requires { 2 * n ≤ length t.old }
    ensures { t.new ≡ take n t.old ++ map (λ x. bit_xor x g) (take n t.old) ++ drop (2 * n) t.old }
{
    for y in 0..n {
        t[n + y] = t[y] ^ g;
    }
}

// The table of six bits, by what each of them gives by itself, the lowest first.
fn sixty_four(t: &mut [u64], w: &[u64; 36], alone: &[u64])
    requires { Light w.now × (length t.old ≡ 64) × (6 ≤ length alone.now) }
    ensures { t.new ≡ sums (λ b. total (weighed w.now (get_or alone.now b 0)) 36) 6 }
{
    t[0] = 0;
    for b in 0..6 {
        double(t, 1 << b, weigh(w, alone[b]));
    }
}

// The three tables of a half, and how many bits it sends.
pub fn half_of(t: &mut [u64], rows: &[u16; 18], h: usize, alone: &[u64; 18]) -> usize
    requires { (alone.now ≡ impulses) × (h < 2) × (length t.old ≡ 192) }
    ensures { (t.new ≡ half_look rows.now h) × (result ≡ total (half_at rows.now h) 30) }
{
    let half = weights_of(rows, h);
    for j in 0..3 {
        sixty_four(&mut t[64 * j..64 * j + 64], &half.weights, &alone[6 * j..]);
    }
    half.bits - 6
}

// The tables of the first half once more, for the second.
pub fn copy_half(t: &mut [u64])
    requires { length t.old ≡ 384 }
    ensures { t.new ≡ take 192 t.old ++ take 192 t.old }
{
    let (first, second) = t.split_at_mut(HALF);
    second.copy_from_slice(first);
}
