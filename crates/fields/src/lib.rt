// What is refused of a payload word (clause 4.3), and the form of what is reported of its header.
#![tactic(auto)]

ghost use Rattle.std.specs.Prelude.{◌≡◌, ◌<◌, eqb};
ghost use Rattle.ground.specs.Choice.{choose};
ghost use Rattle.ground.specs.Refusals.{status};
ghost use Rattle.infoword.specs.Suffix.{address_of};
ghost use Rattle.fields.specs.Report.{no_header_at, read_refusal};

use ground::refusal::Refusal;
use ground::{LAST_HEADER, NO_HEADER, PAYLOAD_BLOCK, PAYLOAD_WORD};
use infoword::{STREAM_TYPE, StreamType};

// What is reported of a word that is accepted: the fields of its header as they stand, which of its parity parts hold (bit k for part
// k), and First_Header_Address, which is 0 for the stream types that have none.
#[derive(Clone, Copy)]
pub struct Header {
    pub rfu: u32,
    pub id: u8,
    // STS_Stream_Type_ID stays a number: a word that is refused can have any, and C is handed it as it stands
    pub kind: u8,
    pub version: u8,
    pub parity: u8,
    pub address: u16,
}

// The bytes of such a header as it is handed to C.
pub const HEADER_BYTES: usize = 16;

// Where the header's other fields stand (tables 2 to 5), in bits.
pub const FIRST_HEADER_ADDRESS: usize = 12248;

pub const STREAM_ID: usize = 12260;

pub const ENCAP_VER: usize = 12271;

const HEADER_CRC: usize = 12274;

// Whether a word is accepted, or why not.
pub fn refusal(word: &[u8]) -> Result<(), Refusal>
    ensures { status result ≡ read_refusal word.now }
{
    if word.len() != PAYLOAD_WORD {
        return Err(Refusal::LengthWrong);
    }
    // the six spare bits (01)
    if bits::field(word, PAYLOAD_BLOCK, 6) != 0 {
        return Err(Refusal::SpareSet);
    }
    // HeaderCRC (tables 2 to 5)
    if bits::field(word, HEADER_CRC, 8) != u32::from(infoword::crc(word)) {
        return Err(Refusal::CrcWrong);
    }
    // Encap_Ver (tables 2 to 5)
    if bits::field(word, ENCAP_VER, 3) != 0 {
        return Err(Refusal::EncapNot0);
    }
    // STS_Stream_Type_ID (tables 2 to 5)
    let kind = bits::field(word, STREAM_TYPE, 3);
    if StreamType::from(kind) == StreamType::Other {
        return Err(Refusal::TypeUnknown);
    }
    // First_Header_Address (table 5)
    if no_header_at(address_of(word, kind)) {
        return Err(Refusal::AddressWrong);
    }
    Ok(())
}

// First_Header_Address of type 3 (table 5), and 0 for any other number: a type in its place would ask more of callers.
pub fn address_of(word: &[u8], kind: u32) -> u32
    ensures { (result ≡ choose (eqb kind 3) (address_of word.now) 0) × (result < 4096) }
{
    match StreamType::from(kind) {
        StreamType::IpStream => bits::field(word, FIRST_HEADER_ADDRESS, 12),
        _ => 0,
    }
}

// Whether an address is one where no header can stand, and not the one that says that there is none.
fn no_header_at(address: u32) -> bool
    ensures { result ≡ no_header_at address }
{
    let address = address as usize;
    LAST_HEADER < address && address < NO_HEADER
}
