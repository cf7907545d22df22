// What all crates share: the refusals of documents 01 and 02 and the sizes of the standard. Definitions and laws stand in specs/ and proofs/.
#![tactic(auto)]

pub mod refusal;

// the block sizes, in bits (clause 4.4.2), and the words that carry them, in bytes, with their six spare bits
pub const PAYLOAD_BLOCK: usize = 12282;

pub const SIGNALLING_BLOCK: usize = 762;

pub const PAYLOAD_WORD: usize = 1536;

pub const SIGNALLING_WORD: usize = 96;
// the bits of a signalling word before its CRC (table 14)
pub const SIGNALLING_LISTS: usize = 750;
// the puncturing patterns, by number from 0 on (tables 7 and 8)
pub const PATTERNS: usize = 28;
// the bytes of a capacity unit: 2,048 bits (clause 4.6)
pub const CAPACITY_UNIT: usize = 256;
// the taps of a pipe's disperser (clause 4.10.7)
pub const TAPS: usize = 32;
// First_Header_Address (table 5): the last place of a payload where a header fits, and the number that says that none begins in the word
pub const LAST_HEADER: usize = 1502;

pub const NO_HEADER: usize = 0xFFF;
