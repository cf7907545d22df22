// The signalling word's block in the order in which encoder 2 reads it (clause 4.4.4), by the stored list of its addresses.
#![tactic(auto)]

mod eight;
mod single;

ghost use Rattle.std.specs.Prelude.{◌≡◌};
ghost use Rattle.order.specs.Order.{order};
ghost use Rattle.listed.specs.Listed.{listed};

use eight::Block;
use ground::PAYLOAD_WORD;
use pairs::SIGNALLING_PAIRS;

// What encoder 2 reads of a signalling word's block, packed, into lent bytes, and zeros behind it. Places past the end of the word read 0.
pub fn read_into(word: &[u8], out: &mut [u8; PAYLOAD_WORD])
    ensures { out.new ≡ listed (order 762) word.now }
{
    let list = addresses::signalling();
    let mut bits = [0u8; SIGNALLING_PAIRS];
    single::unpack(word, &mut bits);
    let block = Block {
        list: &list,
        bits: &bits,
    };
    block.pack(out);
}

// What encoder 2 reads of a signalling word's block, packed, and zeros behind it. Places past the end of the word read 0.
// It stands beside `read_into`, which it calls: it is public, and `read_agrees` is a theorem of it.
pub fn read(word: &[u8]) -> [u8; PAYLOAD_WORD]
    ensures { result ≡ listed (order 762) word.now }
{
    let mut out = [0u8; PAYLOAD_WORD];
    read_into(word, &mut out);
    out
}
