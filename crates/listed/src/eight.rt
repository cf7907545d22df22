// The bits that encoder 2 reads, by the addresses of the list, eight to a byte.
ghost use Rattle.std.specs.Prelude.{◌≡◌, ℕ, ◌+◌, ◌<◌, ◌≤◌, get_or};
ghost use Rattle.bits.specs.Places.{number, packed};
ghost use Rattle.order.specs.Order.{order};
ghost use Rattle.listed.specs.Inside.{read_bit};

use ground::{PAYLOAD_WORD, SIGNALLING_BLOCK};
use pairs::SIGNALLING_PAIRS;

// A block's bits, a byte to a bit, and the addresses by which they are read.
#[derive(Drop)]
pub struct Block<'a> {
    pub list: &'a [u16; SIGNALLING_BLOCK],
    pub bits: &'a [u8; SIGNALLING_PAIRS],
    ghost whole: { list.now ≡ order 762 },
    ghost single: { (a : ℕ) → get_or bits.now a 0 < 2 },
}

impl Block<'_> {
    // The bit that is read at the period p.
    fn bit(&self, p: usize) -> u8
        requires { p < 762 }
        ensures { (result ≡ read_bit self.now.bits.now p) × (result < 2) }
    {
        self.bits[usize::from(self.list[p])]
    }

    // Four bits, from the period p on.
    fn four(&self, p: usize) -> u8
        requires { p + 4 ≤ 762 }
        ensures { (result ≡ number (read_bit self.now.bits.now) p 4) × (result < 16) }
    {
        ((self.bit(p) * 2 + self.bit(p + 1)) * 2 + self.bit(p + 2)) * 2 + self.bit(p + 3)
    }

    // All bits, packed: 95 bytes, and the two bits behind them.
    pub fn pack(&self, out: &mut [u8; PAYLOAD_WORD])
        ensures { out.new ≡ packed (read_bit self.now.bits.now) 1536 }
    {
        *out = [0u8; PAYLOAD_WORD];
        for i in 0..95 {
            out[i] = self.four(8 * i) * 16 + self.four(8 * i + 4);
        }
        out[95] = self.bit(760) * 128 + self.bit(761) * 64;
    }
}
