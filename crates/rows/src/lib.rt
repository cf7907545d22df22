// A row of the order (clause 4.4.4) of a block in pairs: 24 places, read six at a time. A pair's second bit is read half of all rows on, so that a row's pairs spell
// that row too.
#![tactic(auto)]

ghost use Rattle.std.specs.Prelude.{◌≡◌, ◌+◌, ◌*◌, ◌<◌, ◌≤◌, length, IsTrue};
ghost use Rattle.bits.specs.Places.{number};
ghost use Rattle.rows.specs.Spelt.{digits, twice, rows_of};
ghost use Rattle.rows.specs.Inside.{small, pair_at, six_of};

// the segments of a block; pairs has the product with the rows as a number, here the rows divide
const SEGMENTS: usize = 24;
// a segment has as many pairs as the block has rows
const PAYLOAD_ROWS: usize = 512;

const SIGNALLING_ROWS: usize = 32;
// of two rows of 24 bits in a number, the second stands above 32 bits
pub const SECOND: u64 = 1 << 32;

// A row of a block in pairs, of 24 segments of `size` pairs each.
#[derive(Drop)]
struct Row<'a> {
    d: &'a [u8],
    size: usize,
    j: usize,
    ghost len: { length d.now ≡ 24 * size },
    ghost some: { 0 < size },
    ghost most: { size ≤ 512 },
    ghost row: { j < 512 },
}

impl Row<'_> {
    // The pair at the place t, by an entry of table 10. The counter's low numbers that end in two ones give addresses behind the block and are passed over.
    fn pair(&self, t: usize, entry: usize) -> u64
        requires { (t < 24) × (entry < 512) }
        ensures { (result ≡ pair_at self.now.d.now self.now.size self.now.j t entry) × (result < 256) }
    {
        u64::from(self.d[reversal::reversed(t + t / 3) * self.size + self.j * entry % self.size])
    }

    // The pairs at six places from t on: their first bits spell six bits of the row, and their second bits those of the row that is read with it.
    // A loop over the six is not unrolled, and makes `opl_encode` four times as slow as it was (make bench).
    fn six(&self, t: usize, entries: [usize; 6]) -> u64
        requires { (t + 6 ≤ 24) × IsTrue (small entries) }
        ensures { (result ≡ number (six_of self.now.d.now self.now.size self.now.j t entries) 0 6) × (result < 16384) }
    {
        let a = (self.pair(t, entries[0]) * 2 + self.pair(t + 1, entries[1])) * 2
            + self.pair(t + 2, entries[2]);
        ((a * 2 + self.pair(t + 3, entries[3])) * 2 + self.pair(t + 4, entries[4])) * 2
            + self.pair(t + 5, entries[5])
    }
}

// Four digits in base 64.
fn joined(a: u64, b: u64, c: u64, d: u64) -> u64
    requires { (a < 256) × (b < 256) × (c < 256) × (d < 256) }
    ensures { (result ≡ digits a b c d) × (result < 134217728) }
{
    ((a * 64 + b) * 64 + c) * 64 + d
}

// Two rows of 24 bits, the second above 32 bits, of the four sixes of both.
fn two(a: u64, b: u64, c: u64, d: u64) -> u64
    requires { (a < 16384) × (b < 16384) × (c < 16384) × (d < 16384) }
    ensures { result ≡ twice a b c d }
{
    joined(a / 64, b / 64, c / 64, d / 64) * SECOND + joined(a % 64, b % 64, c % 64, d % 64)
}

// What the pairs of the row j of a block of n bits spell, and above 32 bits the row half of all rows on, by table 10's entries for n = 9 and n = 5. It is 0 for a row from 512 on, and of
// another number of pairs than the block has.
// It is no Option: it answers for any row and pairs, as `rows_of` of specs/Spelt.antt does, and the interleaver, which calls it, has the pairs of a block.
// Each block has its own lines, by its column of table 10: one text for both would take a size and 24 entries more, and say no more.
pub fn rows_of(n: usize, d: &[u8], j: usize) -> u64
    ensures { result ≡ rows_of n d.now j }
{
    if PAYLOAD_ROWS <= j {
        return 0;
    }
    if n == ground::PAYLOAD_BLOCK {
        if d.len() != SEGMENTS * PAYLOAD_ROWS {
            return 0;
        }
        let row = Row {
            d,
            size: PAYLOAD_ROWS,
            j,
        };
        return two(
            row.six(0, [13, 335, 87, 15, 1, 333]),
            row.six(6, [13, 1, 121, 1, 175, 421]),
            row.six(12, [509, 215, 47, 295, 229, 427]),
            row.six(18, [409, 387, 193, 501, 313, 489]),
        );
    }
    if d.len() != SEGMENTS * SIGNALLING_ROWS {
        return 0;
    }
    let row = Row {
        d,
        size: SIGNALLING_ROWS,
        j,
    };
    two(
        row.six(0, [27, 3, 1, 13, 17, 23]),
        row.six(6, [9, 3, 15, 13, 1, 13]),
        row.six(12, [21, 19, 1, 29, 17, 25]),
        row.six(18, [9, 13, 23, 13, 1, 13]),
    )
}
