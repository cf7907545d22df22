// Payload words of IP streams (clause 4.3.4), written: packets that wait in a queue go into word after word.
#![tactic(auto)]

mod lay;

ghost use Rattle.std.specs.Prelude.{◌≡◌, ◌++◌, ◌+◌, ◌<◌, length, take};
ghost use Rattle.ground.specs.Outcome.{Is};
ghost use Rattle.ground.specs.Refusals.{status};
ghost use Rattle.bits.specs.Lists.{bits, pack};
ghost use Rattle.infoword.specs.Word.{ip_word};
ghost use Rattle.ip_write.specs.Writing.{written};

use ground::PAYLOAD_WORD;
use ground::refusal::Refusal;
use infoword::{StreamType, TRANSPORT_BYTES};
use lay::Progress;

// Two numbers of four bytes.
const PROGRESS: usize = 8;

// The byte with the first eight bits of First_Header_Address; its last four begin the last four bytes of the word (table 5).
const ADDRESS: usize = 1531;

// What stands behind the payload (table 5): Parity_Parts, RFU 0, First_Header_Address, and what ends every word.
fn close(word: &mut [u8; PAYLOAD_WORD], id: u8, address: u32)
    requires { address < 4096 }
    ensures { word.new ≡ ip_word id address (take 1504 word.old) }
{
    parts_put::put_parts(word);
    word[ADDRESS] = (address / 16) as u8;
    // the end of the address, STS_ID, STS_Stream_Type_ID, Encap_Ver 0
    ending::close(
        word,
        address % 16 * 0x4000 + (u32::from(id) * 64 + StreamType::IpStream as u32 * 8),
    );
}

// What is done with.
fn put_progress(progress: &mut [u8; PROGRESS], p: Progress)
    ensures { progress.new ≡ pack 4 (bits 32 p.done) ++ pack 4 (bits 32 p.sent) }
{
    progress[..4].copy_from_slice(&p.done.to_be_bytes());
    progress[4..].copy_from_slice(&p.sent.to_be_bytes());
}

// Writes the next word of an IP stream from the queue, of whose first packet earlier words carry `sent` bytes, its header counted, and how
// much of the queue is done with. A refusal touches nothing.
pub fn write(
    id: u8,
    sent: u32,
    queue: &[u8],
    word: &mut [u8],
    progress: &mut [u8],
) -> Result<(), Refusal>
    ensures { Is (written id sent queue.now word.old progress.old) (status result) (word.new, progress.new) × (id < 256) }
{
    let address = ip_queue::look(queue, sent)?;
    let Some(word) = word.as_mut_array::<PAYLOAD_WORD>() else {
        return Err(Refusal::LengthWrong);
    };
    let Some(progress) = progress.as_mut_array::<PROGRESS>() else {
        return Err(Refusal::LengthWrong);
    };
    let done = lay::fill(queue, sent, &mut word[..TRANSPORT_BYTES]);
    close(word, id, address);
    put_progress(progress, done);
    Ok(())
}
