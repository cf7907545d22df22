// The constituent encoder (clauses 4.4.2 and 4.4.3), and what each bit that six bit periods depend on gives by itself.
#![tactic(auto)]

ghost use Rattle.std.specs.Prelude.{◌≡◌};
ghost use Rattle.constituent.specs.Six.{impulses};

// The register of the constituent encoder (figure 5), of which the definitions speak.
#[derive(Clone, Copy)]
pub struct State {
    pub a1: u8,
    pub a2: u8,
    pub a3: u8,
}

// By the bits of a number that holds six bits of encoder 1, six of encoder 2 and the two registers, the lowest first: six groups of five symbols, and the registers then.
const IMPULSES: [u64; 18] = [
    0b00000_00011_00010_00011_00001_00001_000_011, // 0
    0b00010_00011_00001_00001_00010_00000_000_100, // 1
    0b00011_00010_00011_00001_00001_00010_000_001, // 2
    0b00000_01100_01000_01100_00100_00100_011_000, // 3
    0b01000_01100_00100_00100_01000_00000_100_000, // 4
    0b01100_01000_01100_00100_00100_01000_001_000, // 5
    0b00000_00000_00000_00000_00000_00011_000_100, // 6
    0b00000_00000_00000_00000_00011_00011_000_010, // 7
    0b00000_00000_00000_00011_00011_00010_000_101, // 8
    0b00000_00000_00011_00011_00010_00011_000_110, // 9
    0b00000_00011_00011_00010_00011_00001_000_111, // 10
    0b00011_00011_00010_00011_00001_00001_000_011, // 11
    0b00000_00000_00000_00000_00000_11100_100_000, // 12
    0b00000_00000_00000_00000_11100_01100_010_000, // 13
    0b00000_00000_00000_11100_01100_01000_101_000, // 14
    0b00000_00000_11100_01100_01000_01100_110_000, // 15
    0b00000_11100_01100_01000_01100_00100_111_000, // 16
    0b11100_01100_01000_01100_00100_00100_011_000, // 17
];

pub fn impulses() -> [u64; 18]
    ensures { result ≡ impulses }
{
    IMPULSES
}
