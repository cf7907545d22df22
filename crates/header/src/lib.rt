// The fields of a payload word's header (clause 4.3), as they are reported.
#![tactic(auto)]

ghost use Rattle.std.specs.Prelude.{◌≡◌};
ghost use Rattle.infoword.specs.Suffix.{kind_of, rfu_of};
ghost use Rattle.infoword.specs.Types.{stream_type};
ghost use Rattle.fields.specs.Report.{holding_of, header_of};

use fields::{ENCAP_VER, Header, STREAM_ID};
use infoword::{RFU, RFU_WITH_PARITY, STREAM_TYPE, StreamType};

// RFU, by stream type: 32 bits in type 2 (table 4), 20 in type 3 (table 5), 4 in any other. The type stands beside the word: a struct of the two
// would be built for this and parity_of alone.
fn rfu_of(word: &[u8], stream: StreamType) -> u32
    requires { stream ≡ stream_type (kind_of word.now) }
    ensures { result ≡ rfu_of word.now }
{
    match stream {
        StreamType::IpStream => bits::field(word, RFU_WITH_PARITY, 20),
        StreamType::TransportStream => bits::field(word, RFU_WITH_PARITY, 32),
        _ => bits::field(word, RFU, 4),
    }
}

// Which parity parts hold, by stream type: types 2 and 3 have four, any other none.
fn parity_of(word: &[u8], stream: StreamType) -> u8
    requires { stream ≡ stream_type (kind_of word.now) }
    ensures { result ≡ holding_of word.now }
{
    match stream {
        StreamType::TransportStream | StreamType::IpStream => parts_held::held(word),
        _ => 0,
    }
}

// What is reported of a word.
pub fn header_of(word: &[u8]) -> Header
    ensures { result ≡ header_of word.now }
{
    let kind = bits::field(word, STREAM_TYPE, 3);
    let stream = StreamType::from(kind);
    Header {
        rfu: rfu_of(word, stream),
        id: bits::field(word, STREAM_ID, 8) as u8,
        kind: kind as u8,
        version: bits::field(word, ENCAP_VER, 3) as u8,
        parity: parity_of(word, stream),
        address: fields::address_of(word, kind) as u16,
    }
}
