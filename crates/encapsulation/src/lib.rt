// The OPL encapsulation of stream types 0, 1 and 2 (clauses 4.3.1 to 4.3.3): payload words, written.
#![tactic(auto)]

mod packet;
mod transport;

ghost use Rattle.std.specs.Prelude.{◌<◌};
ghost use Rattle.ground.specs.Outcome.{Is};
ghost use Rattle.ground.specs.Refusals.{status};
ghost use Rattle.encapsulation.specs.Writing.{written};

use ground::PAYLOAD_WORD;
use ground::refusal::Refusal;
use infoword::StreamType;

// Writes the payload word of a stream type (0 with an empty payload, 1 with 1,532 bytes, 2 with count packets of 188 bytes, and null
// packets behind them) into 1,536 bytes; or says why not, and touches nothing. The type is a number, as C hands it in: an enum would ask more of
// callers.
pub fn write(
    kind: u32,
    id: u8,
    count: u32,
    payload: &[u8],
    null: &[u8],
    word: &mut [u8],
) -> Result<(), Refusal>
    ensures { Is (written kind id count payload.now null.now word.old) (status result) word.new × (id < 256) }
{
    write_faults::refusal(kind, count, payload.len(), null.len(), word.len())?;
    // of the right length, as nothing is refused
    let word = word.as_mut_array::<PAYLOAD_WORD>().unwrap();
    packet::fill(payload, word);
    transport::carry(StreamType::from(kind), count, null, word);
    // the end of RFU 0, STS_ID, STS_Stream_Type_ID, Encap_Ver 0 (tables 2 to 4)
    ending::close(word, u32::from(id) * 64 + kind * 8);
    Ok(())
}
