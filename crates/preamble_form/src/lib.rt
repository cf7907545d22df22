// Which of the two preambles (clause 4.10.1.2) bytes are, if any.
#![tactic(auto)]

ghost use Rattle.std.specs.Prelude.{◌≡◌, length};
ghost use Rattle.ground.specs.Outcome.{Is};
ghost use Rattle.ground.specs.Refusals.{status};
ghost use Rattle.preamble.specs.Preamble.{due};
ghost use Rattle.ground.specs.Table.{same};
ghost use Rattle.preamble_form.specs.Forms.{told, forming, form_into};

use ground::refusal::Refusal;
use preamble::sof;
use preamble::sof::PREAMBLE;

// The preamble that 32 bytes are, with its number as it is handed to C.
#[derive(Clone, Copy, Debug, PartialEq, Eq)]
pub enum Form {
    Upright = 1,
    Inverted = 2,
}

// How many bytes the form takes that is handed to C, and its number for bytes that are neither preamble.
const FORM: usize = 1;

const NEITHER: u8 = 0;

// Whether 32 bytes are the preamble; a bool tells which, as to `due`. All of them are compared, which the compiler makes vectors of: == stops at the first that differs, and takes a third more.
fn is_sof(inverted: bool, bytes: &[u8]) -> bool
    requires { length bytes.now ≡ 32 }
    ensures { result ≡ same bytes.now (due inverted) }
{
    let sof = sof::due(inverted);
    let mut is = true;
    for i in 0..PREAMBLE {
        is &= bytes[i] == sof[i];
    }
    is
}

// The form of 32 bytes, if they have one; refuses any other length.
pub fn tell(bytes: &[u8]) -> Result<Option<Form>, Refusal>
    ensures { told result ≡ forming bytes.now }
{
    if bytes.len() != PREAMBLE {
        return Err(Refusal::LengthWrong);
    }
    if is_sof(false, bytes) {
        return Ok(Some(Form::Upright));
    }
    if is_sof(true, bytes) {
        return Ok(Some(Form::Inverted));
    }
    Ok(None)
}

// Tells the form of 32 bytes into one byte; a refusal touches nothing.
pub fn tell_into(bytes: &[u8], out: &mut [u8]) -> Result<(), Refusal>
    ensures { Is (form_into bytes.now out.old) (status result) out.new }
{
    if out.len() != FORM {
        return Err(Refusal::LengthWrong);
    }
    out[0] = match tell(bytes)? {
        None => NEITHER,
        Some(form) => form as u8,
    };
    Ok(())
}
