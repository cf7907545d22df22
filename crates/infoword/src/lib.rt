// Payload words, whatever their stream type (clause 4.3): where their fields stand, the size of their packets, and the CRC over the header.
#![tactic(auto)]

ghost use Rattle.std.specs.Prelude.{◌≡◌, ◌≤◌};
ghost use Rattle.infoword.specs.Suffix.{has_parity, covered_of, header_crc};
ghost use Rattle.infoword.specs.Types.{stream_type};
ghost use Rattle.infoword.specs.Word.{packet_bytes};

// The stream types (tables 1 to 5), in the order of their numbers, and `Other` for every number that names none: a word that has it is refused.
#[derive(Clone, Copy, Debug, PartialEq, Eq)]
pub enum StreamType {
    Empty,
    Transparent,
    TransportStream,
    IpStream,
    Other,
}

impl From<u32> for StreamType {
    ghost from_gives = { λ kind t. t ≡ stream_type kind };

    // The stream type with a number.
    fn from(kind: u32) -> StreamType {
        match kind {
            0 => StreamType::Empty,
            1 => StreamType::Transparent,
            2 => StreamType::TransportStream,
            3 => StreamType::IpStream,
            _ => StreamType::Other,
        }
    }
}

// The size of the payload packets of transparent words, and of transport streams and IP streams, in bytes (table 1).
pub const TRANSPARENT_BYTES: usize = 1532;

pub const TRANSPORT_BYTES: usize = 1504;

// The bytes of a word before its last four.
pub const LAST: usize = 1532;

// Where STS_Stream_Type_ID stands (tables 2 to 5), in bits.
pub const STREAM_TYPE: usize = 12268;

// Where RFU begins in types 2 and 3 (tables 4 and 5) and in any other (tables 2 and 3), in bits, and how many bits of header the CRC covers
// from there on.
pub const RFU_WITH_PARITY: usize = 12228;

const COVERED_WITH_PARITY: usize = 46;

pub const RFU: usize = 12256;

const COVERED: usize = 18;

// Whether a stream type has Parity_Parts (tables 4 and 5), by its number: the promise is for each, and a type would ask more of callers.
pub fn has_parity(kind: u32) -> bool
    ensures { result ≡ has_parity kind }
{
    matches!(
        StreamType::from(kind),
        StreamType::TransportStream | StreamType::IpStream
    )
}

// The CRC that is due in a word: over the 46 header bits of types 2 and 3, and over 18 in any other.
pub fn crc(word: &[u8]) -> u8
    ensures { result ≡ header_crc (covered_of word.now) }
{
    if has_parity(bits::field(word, STREAM_TYPE, 3)) {
        return crc::crc8(word, RFU_WITH_PARITY, COVERED_WITH_PARITY);
    }
    crc::crc8(word, RFU, COVERED)
}

// How many bytes the payload packet of a stream type has (table 1), by its number, as in has_parity.
pub fn bytes(kind: u32) -> usize
    ensures { (result ≡ packet_bytes kind) × (result ≤ 1532) }
{
    match StreamType::from(kind) {
        StreamType::Transparent => TRANSPARENT_BYTES,
        StreamType::TransportStream | StreamType::IpStream => TRANSPORT_BYTES,
        StreamType::Empty | StreamType::Other => 0,
    }
}
