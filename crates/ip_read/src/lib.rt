// Payload words of IP streams (clause 4.3.4), read: packets that end in a word are handed out, and the one that is open is kept.
#![tactic(auto)]

mod held;
mod taking;

ghost use Rattle.ground.specs.Outcome.{Is};
ghost use Rattle.ground.specs.Refusals.{status};
ghost use Rattle.ip_read.specs.Reading.{read_into};

use ground::refusal::Refusal;
use infoword::StreamType;
use ip_look::PAYLOAD;
use ip_open::ROOM;

// Reads the next word of an IP stream: its header into 16 bytes, the packets that end in it to the front of packets, and what is then open
// into the memory of the open packet. A word of type 0, 1 or 2 leaves packets and memory. A refusal touches nothing.
pub fn read(
    word: &[u8],
    memory: &mut [u8],
    packets: &mut [u8],
    header: &mut [u8],
) -> Result<(), Refusal>
    ensures { Is (read_into word.now memory.old packets.old header.old) (status result) (memory.new, packets.new, header.new) }
{
    ip_look::refusal(word, memory, packets.len(), header.len())?;
    let h = header::header_of(word);
    // the header has the type as the number that C is handed
    if StreamType::from(u32::from(h.kind)) != StreamType::IpStream {
        header_bytes::put_header(header, h, 0);
        return Ok(());
    }
    // of the right lengths, as nothing is refused
    let payload = word.first_chunk::<PAYLOAD>().unwrap();
    let held = memory.as_mut_array::<ROOM>().unwrap();
    let handed = taking::take_in(payload, h.address as usize, held, packets);
    header_bytes::put_header(header, h, handed as u16);
    Ok(())
}
