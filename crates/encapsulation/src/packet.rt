// The payload that is lent, in the bytes before the header that it fills.
ghost use Rattle.std.specs.Prelude.{◌≡◌, ◌++◌, ◌≤◌, length, drop};
ghost use Rattle.infoword.specs.Word.{filled};

use ground::PAYLOAD_WORD;
use infoword::TRANSPARENT_BYTES;

// The payload into the first 1,532 bytes, and zeros behind it.
pub fn fill(payload: &[u8], word: &mut [u8; PAYLOAD_WORD])
    requires { length payload.now ≤ 1532 }
    ensures { word.new ≡ filled 1532 payload.now ++ drop 1532 word.old }
{
    let n = payload.len();
    byte_runs::copy(payload, word, 0);
    word[n..TRANSPARENT_BYTES].fill(0);
}
