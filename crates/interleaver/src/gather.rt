// The bits in the order in which encoder 2 reads them, row by row (clause 4.4.4): a row has 24 columns, of which the last but one is at times left out.
ghost use Rattle.std.specs.Prelude.{◌≡◌, ◌+◌, ◌*◌, ◌^◌, ◌<◌, ◌≤◌, replicate, IsTrue};
ghost use Rattle.wide.specs.Held.{place_of, Put};
ghost use Rattle.order.specs.Order.{parameter};
ghost use Rattle.pairs.specs.Pairs.{Paired};
ghost use Rattle.interleaver.specs.Inside.{
  is_block,
  half_of,
  Listed,
  short_at,
  row_value,
  row_width,
  Gathering,
  Gathered,
};

use ground::PAYLOAD_WORD;
use rows::SECOND;
use wide::{Wide, put};

// half the rows of the payload's block, and of the signalling word's
const PAYLOAD_HALF: usize = 256;

const SIGNALLING_HALF: usize = 16;

// A block of n bits in pairs: of either size, though the short one is read by the list (docs/DECISIONS.md, 122).
// n tells which of the two, as it tells `rows_of`: an enum would need a method that gives n again, and every clause below the definition of that method.
#[derive(Drop)]
pub struct Pairs<'a> {
    pub n: usize,
    pub d: &'a [u8],
    ghost block: { IsTrue (is_block n) },
    ghost paired: { Paired (2 ^ parameter n) d.now },
}

impl Pairs<'_> {
    // Half the rows.
    fn half(&self) -> usize
        ensures { (result ≡ half_of self.now.n) × (result ≤ 256) }
    {
        if self.n == ground::PAYLOAD_BLOCK {
            PAYLOAD_HALF
        } else {
            SIGNALLING_HALF
        }
    }

    // Whether the last column but one of the row j is left out: its address is behind the block.
    fn is_short(&self, j: usize) -> bool
        requires { j ≤ 512 }
        ensures { result ≡ short_at self.now.n j }
    {
        if self.n == ground::PAYLOAD_BLOCK {
            506 <= j * 313 % 512
        } else {
            26 <= j % 32
        }
    }

    // The row j into the sink: 24 bits, or 23 where it is cut short.
    // That fewer than 32 bits wait is no fact of `Wide` itself: whoever builds one would be asked for it, and `wide::put` takes any.
    fn put_row(&self, out: &mut [u8; PAYLOAD_WORD], s: Wide, j: usize, v: u64) -> Wide
        requires { (j ≤ 512) × (s.used < 32) × (v < 16777216) × (place_of s + 24 ≤ 12288) }
        ensures { Put (row_value (short_at self.now.n j) v) (row_width (short_at self.now.n j)) out.old s out.new result }
    {
        if self.is_short(j) {
            return put(out, s, v / 4 * 2 + v % 2, 23);
        }
        put(out, s, v, 24)
    }

    // The rows of the first half, each with the row of the second half that is read with it.
    fn fill(&self, rows: &mut [[u32; 2]; PAYLOAD_HALF])
        ensures { Listed self.now.n self.now.d.now rows.new (half_of self.now.n) }
    {
        for i in 0..self.half() {
            let v = rows::rows_of(self.n, self.d, i + 1);
            rows[i] = [(v % SECOND) as u32, (v / SECOND) as u32];
        }
    }

    // The rows of the half k into the sink, behind those before.
    fn put_rows(
        &self,
        out: &mut [u8; PAYLOAD_WORD],
        s: Wide,
        rows: &[[u32; 2]; PAYLOAD_HALF],
        k: usize,
    ) -> Wide
        requires { (k < 2) × Listed self.now.n self.now.d.now rows.now (half_of self.now.n) × Gathering self.now.n self.now.d.now out.old s (k * half_of self.now.n) }
        ensures { Gathering self.now.n self.now.d.now out.new result (k * half_of self.now.n + half_of self.now.n) }
    {
        let half = self.half();
        let mut t = s;
        for i in 0..half {
            t = self.put_row(out, t, k * half + i + 1, u64::from(rows[i][k]));
        }
        t
    }

    // The bits that the pairs hold first, in the order in which encoder 2 reads them, packed. Six bits more make whole words of 32, which the sink stores.
    pub fn gather(&self, out: &mut [u8; PAYLOAD_WORD])
        requires { out.old ≡ replicate 1536 0 }
        ensures { Gathered self.now.n self.now.d.now out.new }
    {
        let mut rows = [[0u32; 2]; PAYLOAD_HALF];
        self.fill(&mut rows);
        let half = self.put_rows(out, Wide::new(0), &rows, 0);
        let whole = self.put_rows(out, half, &rows, 1);
        put(out, whole, 0, 6);
    }
}
