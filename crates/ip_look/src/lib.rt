// What is looked at of a word of an IP stream before anything is handed out of it (clause 4.3.4): whether it is refused, and with which number.
#![tactic(auto)]

mod looking;

ghost use Rattle.std.specs.Prelude.{◌≡◌, eqb, length};
ghost use Rattle.ground.specs.Choice.{both, first_of};
ghost use Rattle.ground.specs.Refusals.{status};
ghost use Rattle.ip_look.specs.Looking.{got_of, ip_faults};
ghost use Rattle.ip_look.specs.Steps.{packets_refusal};

use fields::{FIRST_HEADER_ADDRESS, HEADER_BYTES};
use ground::PAYLOAD_WORD;
use ground::refusal::Refusal;
use infoword::{STREAM_TYPE, StreamType};
use ip_open::ROOM;

// The payload of a word of type 3, in bytes (table 5).
pub use infoword::TRANSPORT_BYTES as PAYLOAD;

// The most bytes that one word hands out.
const PACKETS: usize = 6604;

// Whether the payload of a word of type 3 is refused, with 19, by the packet that is open. A word or a memory of any other length is not
// looked at: that is another refusal.
fn refused(word: &[u8], memory: &[u8]) -> bool
    ensures { result ≡ both (eqb (length word.now) 1536)
        (both (eqb (length memory.now) 4104) (got_of word.now memory.now).refused) }
{
    if word.len() != PAYLOAD_WORD {
        return false;
    }
    let Some(memory) = memory.as_array::<ROOM>() else {
        return false;
    };
    let address = bits::field(word, FIRST_HEADER_ADDRESS, 12) as usize;
    looking::payload_refused(&word[..PAYLOAD], memory, address)
}

// The refusal of the packets in a word, 19: words of type 0, 1 and 2 have none.
fn packets_refusal(word: &[u8], memory: &[u8]) -> Result<(), Refusal>
    ensures { status result ≡ packets_refusal word.now memory.now }
{
    // a fault may stand behind packets that would already be handed out, so all of the payload is looked at before
    let stream_type = StreamType::from(bits::field(word, STREAM_TYPE, 3));
    if stream_type == StreamType::IpStream && refused(word, memory) {
        return Err(Refusal::PacketsWrong);
    }
    Ok(())
}

// The refusal of a read, by the word, the memory of the open packet and the lengths of packets and header.
pub fn refusal(word: &[u8], memory: &[u8], room: usize, header: usize) -> Result<(), Refusal>
    ensures { status result ≡ first_of (ip_faults word.now memory.now room header) }
{
    if memory.len() != ROOM || room < PACKETS || header != HEADER_BYTES {
        return Err(Refusal::LengthWrong);
    }
    // both are looked for before either answers: the word's own comes first
    let own = fields::refusal(word);
    let carried = packets_refusal(word, memory);
    own?;
    carried
}
