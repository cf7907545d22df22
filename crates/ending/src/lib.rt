// What ends every payload word, whatever its stream type (clause 4.3): the header's last 18 bits, the CRC over it and six spare bits.
#![tactic(auto)]

ghost use Rattle.std.specs.Prelude.{◌≡◌};
ghost use Rattle.infoword.specs.Steps.{closing};

use ground::PAYLOAD_WORD;
use infoword::LAST;

// In the last four bytes as a number: one more than 18 bits of header hold, and the weights of their lowest bit and of the CRC's.
const HEAD_END: u32 = 1 << 18;

const HEAD: u32 = 1 << 14;

const CRC: u32 = 1 << 6;

// The last four bytes of a word: the low 18 bits of a number as the end of the header, the CRC that is due in the word with them, and
// the spare bits.
pub fn close(word: &mut [u8], head: u32)
    ensures { word.new ≡ closing word.old head }
{
    if word.len() != PAYLOAD_WORD {
        return;
    }
    // no CRC at first, and the spare bits
    let bare = head % HEAD_END * HEAD;
    word[LAST..].copy_from_slice(&bare.to_be_bytes());
    let crc = u32::from(infoword::crc(word));
    word[LAST..].copy_from_slice(&(bare + crc * CRC).to_be_bytes());
}
