// Which of the parity parts of a payload word hold (clause 4.3.3).
#![tactic(auto)]

ghost use Rattle.std.specs.Prelude.{◌≡◌, ◌*◌, ◌<◌, ◌≤◌};
ghost use Rattle.ground.specs.Choice.{choose};
ghost use Rattle.parity.specs.Part.{parity_holds, part_of, received, held_of};

// Where Parity_Parts begins, in bits (table 4).
const PARITY_PARTS: usize = 12032;

// The bits of each; they are read in two fields, since a field has 32 bits at most.
const PART_BITS: usize = 49;

const HIGH_BITS: usize = 32;

const LOW_BITS: usize = PART_BITS - HIGH_BITS;

// The weight in a part d47 .. d0 p0 that is a number of the lowest bit of its first field: p0 has the weight 1.
const D16: u64 = 1 << 17;

// The value where part k, to which the parity part v is due, has it behind the packets; else 0. It is no bool: `held_of` adds up the four values, and a bool
// would be turned into one at each of the calls.
fn weight(word: &[u8], k: usize, v: u64, value: u8) -> u8
    requires { (k < 4) × (v ≡ part_of word.now (376 * k)) }
    ensures { (result ≡ choose (parity_holds (received word.now k)) value 0) × (result ≤ value) }
{
    let at = PARITY_PARTS + PART_BITS * k;
    let high = bits::field(word, at, HIGH_BITS) as u64;
    let low = bits::field(word, at + HIGH_BITS, LOW_BITS) as u64;
    if high * D16 + low == v { value } else { 0 }
}

// Which of the four parts of a payload word hold: bit k is set where part k does; what is past the end reads zero.
pub fn held(word: &[u8]) -> u8
    ensures { result ≡ held_of word.now }
{
    let v = parts::parts(word);
    weight(word, 0, v[0], 1)
        + weight(word, 1, v[1], 2)
        + weight(word, 2, v[2], 4)
        + weight(word, 3, v[3], 8)
}
