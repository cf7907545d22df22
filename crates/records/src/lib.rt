// What stands in a record of a word or of a sheet: the fields that the library looks at, by their places in the standard's tables. Past the end they are zero.
#![tactic(auto)]

ghost use Rattle.std.specs.Prelude.{◌≡◌, ◌+◌, ◌<◌, eqb};
ghost use Rattle.ground.specs.Choice.{choose};
ghost use Rattle.records.specs.Records.{multiplex_at, pipe_at, tail_at};

// Of the multiplex: Sig_Pipe_Ver, Operator_ID, Frame_Index and Num_Pipes_1 (table 15).
#[derive(Clone, Copy)]
pub struct Multiplex {
    pub version: u32,
    pub operator: u32,
    pub frame: u32,
    pub pipes: u8,
}

// Of a payload pipe: Punct_Pat_ID and Pipe_Width_CUs (table 16), and the streams and the sections that it owns (clauses 4.10.3 and 4.10.7).
#[derive(Clone, Copy)]
pub struct Pipe {
    pub pattern: u32,
    pub width: u32,
    pub s: u16,
    pub d: u16,
}

// The multiplex that stands at a place.
pub fn multiplex_at(w: &[u8], at: u32) -> Multiplex
    ensures { result ≡ multiplex_at w.now at }
{
    let at = at as usize;
    Multiplex {
        version: bits::field(w, at, 4),
        operator: bits::field(w, at + 16, 8),
        frame: bits::field(w, at + 26, 22),
        pipes: bits::field(w, at + 52, 4) as u8,
    }
}

// What a payload pipe of this width owns, by its count field: nothing where it is not in use.
fn own(width: u32, count: u32) -> u16
    requires { count < 32 }
    ensures { result ≡ choose (eqb width 0) 0 (count + 1) }
{
    if width == 0 {
        return 0;
    }
    count as u16 + 1
}

// The payload pipe k, counted from 0, of those whose records begin at a place. k is no field of Pipe: a record alone, as pipe and profile read it, has none.
pub fn pipe_at(w: &[u8], at: u32, k: u8) -> Pipe
    ensures { result ≡ pipe_at w.now at k }
{
    let at = at as usize + views::PIPE as usize * k as usize;
    let width = bits::field(w, at + 6, 10);
    Pipe {
        pattern: bits::field(w, at, 6),
        width,
        s: own(width, bits::field(w, at + 16, 5)),
        d: own(width, bits::field(w, at + 21, 3)),
    }
}

// Pipe_Width_CUs of the tail pipe whose record stands at a place (table 16b).
pub fn tail_at(w: &[u8], at: u32) -> u32
    ensures { result ≡ tail_at w.now at }
{
    bits::field(w, at as usize + 7, 9)
}
