// Payload words of stream types 0 to 3 (clauses 4.3.1 to 4.3.4), read.
#![tactic(auto)]

ghost use Rattle.std.specs.Prelude.{◌≡◌};
ghost use Rattle.ground.specs.Outcome.{Is};
ghost use Rattle.ground.specs.Refusals.{status};
ghost use Rattle.bits.specs.Lists.{Below};
ghost use Rattle.payload.specs.Answers.{told, reading, shown, read_into};

use fields::Header;
use ground::refusal::Refusal;
use header_bytes::HEADER;
use infoword::STREAM_TYPE;

// Reads the header of a payload word, or says why the word is refused.
pub fn read(word: &[u8]) -> Result<Header, Refusal>
    ensures { (told result ≡ reading word.now) × Below 256 word.now }
{
    fields::refusal(word)?;
    Ok(header::header_of(word))
}

// The payload of a word that is accepted, a part of the word itself and as it was received: 1,532 bytes for stream type 1, 1,504 for types
// 2 and 3, whatever their parity says. Any other word shows an empty part: it is no Result, since `shown` is empty there, and `read` says why.
pub fn payload_of(word: &[u8]) -> &[u8]
    ensures { result.now ≡ shown word.now }
{
    match fields::refusal(word) {
        Ok(()) => {
            let n = infoword::bytes(bits::field(word, STREAM_TYPE, 3));
            &word[..n]
        }
        Err(_) => &word[..0],
    }
}

// Reads the header of a payload word into 16 bytes; a refusal touches nothing.
pub fn read_into(word: &[u8], header: &mut [u8]) -> Result<(), Refusal>
    ensures { Is (read_into word.now header.old) (status result) header.new }
{
    if header.len() != HEADER {
        return Err(Refusal::LengthWrong);
    }
    let h = read(word)?;
    header_bytes::put_header(header, h, 0);
    Ok(())
}
