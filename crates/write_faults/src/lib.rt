// What is refused of a write of a payload word, by its stream type, its packet count and the lengths that are lent (clauses 4.3.1 to 4.3.3).
#![tactic(auto)]

mod packets;

ghost use Rattle.std.specs.Prelude.{◌≡◌};
ghost use Rattle.ground.specs.Refusals.{status};
ghost use Rattle.write_faults.specs.Faults.{write_refusal};

use ground::PAYLOAD_WORD;
use ground::refusal::Refusal;
use infoword::{StreamType, TRANSPARENT_BYTES};

// A transport stream packet, in bytes, and how many of them a word carries.
pub const TS_PACKET: usize = 188;

pub const TS_PACKETS: u32 = 8;

// Whether a payload word is written, or why not, by the stream type, the packet count and the lengths of payload, null packet and word. The type
// is any number, as C hands it in: an enum would ask more of callers.
pub fn refusal(
    kind: u32,
    count: u32,
    payload: usize,
    null: usize,
    word: usize,
) -> Result<(), Refusal>
    ensures { status result ≡ write_refusal kind count payload null word }
{
    let lent = match StreamType::from(kind) {
        StreamType::Empty => 0,
        StreamType::Transparent => TRANSPARENT_BYTES,
        StreamType::TransportStream => {
            packets::refusal(count, null)?;
            TS_PACKET * count as usize
        }
        StreamType::IpStream | StreamType::Other => return Err(Refusal::TypeUnknown),
    };
    if payload != lent || word != PAYLOAD_WORD {
        return Err(Refusal::LengthWrong);
    }
    Ok(())
}
