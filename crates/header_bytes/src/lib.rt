// What is reported of a payload word, in the 16 bytes that are handed to C.
#![tactic(auto)]

ghost use Rattle.std.specs.Prelude.{◌≡◌};
ghost use Rattle.header_bytes.specs.Bytes.{header_put};

pub use fields::HEADER_BYTES as HEADER;
use fields::Header;

// A header into 16 bytes, with how many bytes of packets were handed out; any other length is left alone.
pub fn put_header(out: &mut [u8], h: Header, handed: u16)
    ensures { out.new ≡ header_put h handed out.old }
{
    if out.len() != HEADER {
        return;
    }
    // RFU; stream id, stream type, Encap_Ver and parity, a byte each; First_Header_Address and the bytes handed out, two bytes each; zeros
    out.fill(0);
    out[..4].copy_from_slice(&h.rfu.to_be_bytes());
    out[4..8].copy_from_slice(&[h.id, h.kind, h.version, h.parity]);
    out[8..10].copy_from_slice(&h.address.to_be_bytes());
    out[10..12].copy_from_slice(&handed.to_be_bytes());
}
