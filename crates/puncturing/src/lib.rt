// The puncturing rows (tables 7 and 8).
#![tactic(auto)]

ghost use Rattle.std.specs.Prelude.{◌≡◌, ◌<◌};
ghost use Rattle.patterns.specs.Rows.{digit};
ghost use Rattle.puncturing.specs.Entries.{entries};
ghost use Rattle.puncturing.specs.Inside.{spaced, entry_from};

use ground::PATTERNS;
use std::array;

// The data rows by pattern number. A group is five bits, X Y0 Y1 Y'0 Y'1; the row is repeated up to twelve groups, which every row's length divides.
const DATA: [u64; PATTERNS] = [
    0b11111_11111_11111_11111_11111_11111_11111_11111_11111_11111_11111_11111, // 0: h
    0b10111_11111_11101_11111_10111_11111_11101_11111_10111_11111_11101_11111, // 1: 10111 h 11101 h
    0b11101_11011_11101_11011_11101_11011_11101_11011_11101_11011_11101_11011, // 2: 11101 11011
    0b10101_10111_10101_11101_10101_10111_10101_11101_10101_10111_10101_11101, // 3: d 10111 d 11101
    0b11010_11010_11010_11010_11010_11111_11010_11010_11010_11010_11010_11111, // 4: e e e e e h
    0b11010_11010_11010_11010_11010_11010_11010_11010_11010_11010_11010_11010, // 5: e
    0b10101_10101_10101_10101_10101_10101_10101_10101_10101_10101_10101_10101, // 6: d
    0b01010_11010_11010_01010_11010_11010_01010_11010_11010_01010_11010_11010, // 7: g e e
    0b10101_00101_10101_10101_00101_10101_10101_00101_10101_10101_00101_10101, // 8: d f d
    0b10000_10101_00101_10101_10101_00101_10101_10101_00101_10101_10101_00101, // 9: a d f d d f d d f d d f
    0b11010_01010_11010_11010_01010_10000_11010_01010_11010_11010_01010_11010, // 10: e g e e g a e g e e g e
    0b10000_11010_01010_11010_01010_11010_10000_11010_01010_11010_01010_11010, // 11: a e g e g e
    0b10101_00101_10101_10000_10101_00101_10101_00101_10101_10000_10101_00101, // 12: d f d a d f
    0b11000_10010_11000_10010_11000_10010_11000_10010_11000_10010_11000_10010, // 13: c b
    0b10010_11000_10010_11000_10010_11000_10010_11000_10010_11000_10010_11000, // 14: b c
    0b10100_10001_10100_10001_10100_10001_10100_10001_10100_10001_10100_10001, // 15: 10100 10001
    0b10000_10010_11000_10000_10010_11000_10000_10010_11000_10000_10010_11000, // 16: a b c
    0b10010_11000_10000_10010_11000_10000_10010_11000_10000_10010_11000_10000, // 17: b c a
    0b11000_10000_10010_11000_10000_10010_11000_10000_10010_11000_10000_10010, // 18: c a b
    0b10000_10000_10000_10101_10000_10000_10000_10101_10000_10000_10000_10101, // 19: a a a d
    0b10000_10101_10000_10000_10000_10101_10000_10000_10000_10101_10000_10000, // 20: a d a a
    0b10000_10000_10101_10000_10000_10000_10101_10000_10000_10000_10101_10000, // 21: a a d a
    0b10000_10000_11000_10000_10000_10010_10000_10000_11000_10000_10000_10010, // 22: a a c a a b
    0b10000_10010_10000_10000_11000_10000_10000_10010_10000_10000_11000_10000, // 23: a b a a c a
    0b11000_10000_10000_10010_10000_10000_11000_10000_10000_10010_10000_10000, // 24: c a a b a a
    0b10000_10000_10000_10000_10000_10000_10000_10000_10000_10000_10100_10001, // 25: ten a, 10100 10001
    0b10000_10000_10000_10000_10000_10000_10100_10001_10000_10000_10000_10000, // 26: six a, 10100 10001, four a
    0b10000_10000_10100_10001_10000_10000_10000_10000_10000_10000_10000_10000, // 27: a a 10100 10001, eight a
];

// The tail rows by pattern number: three octal digits are the copies of X Y0 Y1, and in the last three of the six of X' Y'0 Y'1.
// It stands beside the data rows and not in one table with them: they are tables 7 and 8 of the standard, and each is read against its own page.
const TAIL: [u64; PATTERNS] = [
    0o311_311_311_311_311_311, // 0
    0o311_311_211_211_211_311, // 1
    0o211_211_211_211_211_211, // 2
    0o111_211_211_211_111_111, // 3
    0o111_111_211_111_111_211, // 4
    0o210_210_210_210_210_210, // 5
    0o201_201_201_201_201_201, // 6
    0o110_111_111_110_111_111, // 7
    0o101_111_111_101_111_111, // 8
    0o111_111_101_111_111_101, // 9
    0o111_110_111_111_110_111, // 10
    0o110_110_111_110_110_111, // 11
    0o101_101_111_101_101_111, // 12
    0o110_110_110_110_110_110, // 13
    0o101_101_101_101_101_101, // 14
    0o110_110_110_110_110_110, // 15
    0o101_100_110_100_110_101, // 16
    0o100_110_101_110_101_100, // 17
    0o110_101_100_101_100_110, // 18
    0o100_101_101_100_101_101, // 19
    0o101_100_100_101_100_100, // 20
    0o101_101_100_101_101_100, // 21
    0o100_100_110_100_100_110, // 22
    0o100_110_100_100_110_100, // 23
    0o110_100_100_110_100_100, // 24
    0o100_101_100_100_100_101, // 25
    0o101_100_100_100_101_100, // 26
    0o100_100_100_100_100_100, // 27
];

// Of the eighteen entries the first twelve are data groups. The six behind them are the tail's, with five places each.
pub const DATA_ENTRIES: usize = 12;

pub const TAIL_PLACES: usize = 30;

// A group of five bits as five octal digits.
fn spaced(x: u16) -> u16
    ensures { result ≡ spaced x }
{
    x / 16 % 2 * 0o10000 + x / 8 % 2 * 0o1000 + x / 4 % 2 * 0o100 + x / 2 % 2 * 0o10 + x % 2
}

// The entry j by a pattern's two rows.
fn entry_from(row: u64, tail: u64, j: usize) -> u16
    requires { j < 18 }
    ensures { result ≡ entry_from row tail j }
{
    if j < 12 {
        return spaced(((row >> (55 - 5 * j)) % 32) as u16);
    }
    let e = ((tail >> (9 * (17 - j))) % 512) as u16;
    if j < 15 {
        return e * 64;
    }
    e / 64 * 4096 + e % 64
}

// How often each symbol is sent, by groups of five octal digits: twelve data groups, then the six tail groups. All zero for a number that names no pattern.
// It is no Option: it answers for every number, as `entries` of specs/Entries.antt does, and whoever calls it has tested the number before.
pub fn entries(pattern: usize) -> [u16; 18]
    ensures { result ≡ entries pattern }
{
    let row = DATA.get(pattern).copied().unwrap_or(0);
    let tail = TAIL.get(pattern).copied().unwrap_or(0);
    array::from_fn(|j| entry_from(row, tail, j))
}

// How often the symbol s of a group is sent, at the width of a count.
pub fn wide_digit(group: usize, s: usize) -> usize
    ensures { result ≡ digit group s }
{
    (group >> (3 * 4usize.saturating_sub(s))) % 8
}

// How often the symbol s of a group is sent.
pub fn digit(group: u16, s: usize) -> u8
    ensures { result ≡ digit group s }
{
    wide_digit(group as usize, s) as u8
}
