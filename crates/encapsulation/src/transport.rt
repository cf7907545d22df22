// Stream type 2 (clause 4.3.3): up to eight transport stream packets, and null packets for those that are missing.
ghost use Rattle.std.specs.Prelude.{◌≡◌, ◌≤◌, length};
ghost use Rattle.encapsulation.specs.Steps.{filled_up, carried};

use ground::PAYLOAD_WORD;
use infoword::StreamType;
use write_faults::{TS_PACKET, TS_PACKETS};

// Null packets behind the first count of eight packets.
fn fill_up(null: &[u8], word: &mut [u8; PAYLOAD_WORD], count: usize)
    requires { (length null.now ≡ 188) × (count ≤ 8) }
    ensures { word.new ≡ filled_up count null.now word.old }
{
    for k in count..TS_PACKETS as usize {
        byte_runs::copy(null, word, TS_PACKET * k);
    }
}

// What stream type 2 has more than the others: null packets for those that are missing, and Parity_Parts.
pub fn carry(stream: StreamType, count: u32, null: &[u8], word: &mut [u8; PAYLOAD_WORD])
    requires { stream ≡ StreamType.TransportStream → (count ≤ 8) × (length null.now ≡ 188) }
    ensures { word.new ≡ carried stream count null.now word.old }
{
    if stream == StreamType::TransportStream {
        fill_up(null, word, count as usize);
        parts_put::put_parts(word);
    }
}
