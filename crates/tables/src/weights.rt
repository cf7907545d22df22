// What each bit of six bit periods weighs in the number of what is sent of them.
ghost use Rattle.std.specs.Prelude.{◌≡◌, ◌<◌};
ghost use Rattle.patterns.specs.Sent.{total};
ghost use Rattle.tables.specs.Plan.{half_at};
ghost use Rattle.tables.specs.Tables.{HalfOf, Light, weighed};

// Of a half of twelve groups, with the registers' six bits behind: what each place weighs, and how many bits there are.
#[derive(Clone, Copy)]
pub struct Half {
    pub weights: [u64; 36],
    pub bits: usize,
}

// How often the place i of a half is sent.
// A half is a number, here and above, and no enum: `half_at` and `look_at` count places and entries by it, so that each use and each clause would turn the enum into that number.
fn digit_at(rows: &[u16; 18], h: usize, i: usize) -> u8
    requires { (h < 2) × (i < 36) }
    ensures { (result ≡ half_at rows.now h i) × (result < 2) }
{
    if i < 30 {
        let at = 30 * h + i;
        return puncturing::digit(rows[at / 5], at % 5) % 2;
    }
    1
}

pub fn weights_of(rows: &[u16; 18], h: usize) -> Half
    requires { h < 2 }
    ensures { HalfOf rows.now h result }
{
    let mut weights = [0u64; 36];
    let mut bits = 0;
    for i in (0..36).rev() {
        let d = digit_at(rows, h, i);
        weights[i] = (d as u64) << bits;
        bits += d as usize;
    }
    Half { weights, bits }
}

// What the 36 bits of x weigh together.
pub fn weigh(w: &[u64; 36], x: u64) -> u64
    requires { Light w.now }
    ensures { result ≡ total (weighed w.now x) 36 }
{
    let mut sum = 0;
    for (t, weight) in w.iter().enumerate() {
        sum += (x >> (35 - t)) % 2 * *weight;
    }
    sum
}
