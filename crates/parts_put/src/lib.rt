// Parity_Parts (table 4), written into a payload word: four numbers of 49 bits, through the sink.
#![tactic(auto)]

ghost use Rattle.std.specs.Prelude.{◌≡◌, ◌++◌, ◌+◌, ◌*◌, ◌^◌, ◌≤◌, ◌<◌, length};
ghost use Rattle.bits.specs.Lists.{bits, pack, Below};
ghost use Rattle.wide.specs.Held.{place_of, Put};
ghost use Rattle.infoword.specs.Word.{fields49};
ghost use Rattle.infoword.specs.Steps.{parted};

use ground::PAYLOAD_WORD;
use infoword::{LAST, TRANSPORT_BYTES};
use wide::Wide;

// The low 32 bits of a parity part, which has 49: no more go into the sink at once.
const LOW: u64 = 0x1_0000_0000;

// 49 bits more. That fewer than 32 bits wait is no fact of `Wide` itself: whoever builds one would be asked for it, and `wide::put` takes any.
fn put49(out: &mut [u8], s: Wide, v: u64) -> Wide
    requires { (s.used < 32) × (v < 2 ^ 49) × (place_of s + 49 ≤ 8 * length out.old) }
    ensures { Put v 49 out.old s out.new result }
{
    let high = wide::put(out, s, v / LOW, 17);
    wide::put(out, high, v % LOW, 32)
}

// Four of them, and 28 zeros, into 28 bytes.
fn put(out: &mut [u8], v: &[u64; 4])
    requires { (length out.old ≡ 28) × Below (2 ^ 49) v.now }
    ensures { out.new ≡ pack 28 (fields49 v.now ++ bits 28 0) }
{
    let mut s = Wide::new(0);
    for part in v {
        s = put49(out, s, *part);
    }
    wide::put(out, s, 0, 28);
}

// Parity_Parts of the first 1,504 bytes of a word, and zeros from there to the last four bytes.
pub fn put_parts(word: &mut [u8])
    ensures { word.new ≡ parted word.old }
{
    if word.len() != PAYLOAD_WORD {
        return;
    }
    let v = parts::parts(word);
    put(&mut word[TRANSPORT_BYTES..LAST], &v);
}
