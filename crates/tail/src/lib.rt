// The tail (clause 4.4.3): three clocks of each encoder, and what is sent of their symbols.
#![tactic(auto)]

ghost use Rattle.std.specs.Prelude.{◌≡◌, ◌+◌, ◌-◌, ◌*◌, ◌%◌, ◌^◌, ◌<◌, ◌≤◌};
ghost use Rattle.tail.specs.Tail.{run_of};
ghost use Rattle.tail.specs.Inside.{tails};

// By encoder and register, a1 first: the tail's three groups of five symbols.
const TAILS: [u16; 16] = [
    0b00000_00000_00000, // encoder 1, 000
    0b11100_00000_00000, // encoder 1, 001
    0b10100_11100_00000, // encoder 1, 010
    0b01000_11100_00000, // encoder 1, 011
    0b01100_10100_11100, // encoder 1, 100
    0b10000_10100_11100, // encoder 1, 101
    0b11000_01000_11100, // encoder 1, 110
    0b00100_01000_11100, // encoder 1, 111
    0b00000_00000_00000, // encoder 2, 000
    0b10011_00000_00000, // encoder 2, 001
    0b10001_10011_00000, // encoder 2, 010
    0b00010_10011_00000, // encoder 2, 011
    0b00011_10001_10011, // encoder 2, 100
    0b10000_10001_10011, // encoder 2, 101
    0b10010_00010_10011, // encoder 2, 110
    0b00001_00010_10011, // encoder 2, 111
];

fn tails() -> [u16; 16]
    ensures { result ≡ tails }
{
    TAILS
}

// Bits that are sent together, as a number, and how many there are.
#[derive(Clone, Copy)]
pub struct Run {
    pub value: u64,
    pub bits: usize,
}

impl Run {
    // A symbol more, so many times. Of more than 64 bits the last 64 are kept.
    fn more(self, symbol: u64, times: u8) -> Run
        requires { (symbol < 2) × (times < 8) × (self.bits ≤ 210) }
        ensures { (result.value ≡ (self.value * 2 ^ times + (2 ^ times - 1) * symbol) % 2 ^ 64) × (result.bits ≡ self.bits + times) }
    {
        let t = times as usize;
        Run {
            value: (self.value << t) + ((1 << t) - 1) * symbol,
            bits: self.bits + t,
        }
    }
}

// What is sent of the tail by a pattern's groups, of the registers after the data: three bits of encoder 1 above three of encoder 2.
pub fn run_of(rows: &[u16; 18], both: usize) -> Run
    ensures { result ≡ run_of rows.now both }
{
    let table = tails();
    let symbols = table[both / 8 % 8] as u64 * 32768 + table[8 + both % 8] as u64;
    let mut r = Run { value: 0, bits: 0 };
    for k in 0..puncturing::TAIL_PLACES {
        let times = puncturing::digit(rows[puncturing::DATA_ENTRIES + k / 5], k % 5);
        r = r.more((symbols >> (29 - k)) % 2, times);
    }
    r
}
