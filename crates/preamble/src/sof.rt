// The bytes of the preamble in its two forms.
ghost use Rattle.std.specs.Prelude.{not, ◌≡◌, eqb};
ghost use Rattle.preamble.specs.Preamble.{due};

// How many there are.
pub const PREAMBLE: usize = 32;

// Those that are due. The inverted ones stand here as well, since to invert them in each call takes longer than to copy them.
pub fn due(inverted: bool) -> [u8; PREAMBLE]
    ensures { result ≡ due inverted }
{
    if inverted {
        return *b"\xac\xb0\xb9\xdf\x8f\x8d\x9a\x9e\x92\x9d\x93\x9a\xc5\xdf\xb1\x9a\x88\xdf\xbc\xd2\xab\xac\xdf\x99\x8d\x9e\x92\x9a\x00\x00\x00\x03";
    }
    *b"SOF preamble: New C-TS frame\xff\xff\xff\xfc"
}

// Whether a number asks for the inverted form: 0 does not, and any other does.
pub fn is_inverted(number: u8) -> bool
    ensures { result ≡ not (eqb number 0) }
{
    number != 0
}
