// Where the records of a signalling word and of a sheet stand, in bits (table 14 for a word, document 01 for a sheet). No other code knows a place.
#![tactic(auto)]

ghost use Rattle.std.specs.Prelude.{◌≡◌};
ghost use Rattle.description.specs.Rules.{size};
ghost use Rattle.views.specs.View.{word_view, sheet_view};

// The bits of a record: the multiplex (table 15), a payload pipe (table 16), the tail pipe (table 16b), a stream (table 18), a section (table 19).
pub const MULTIPLEX: u32 = 56;

pub const PIPE: u32 = 48;

pub const TAIL: u32 = 16;

pub const STREAM: u32 = 16;

pub const SECTION: u32 = 12;

// In a sheet a section stands behind four bits that are zero.
pub const ABOVE: u32 = 4;

// The header of a sheet of form 1, in bytes.
pub const FORM1: u8 = 12;

// How many payload pipes, streams and sections there are (01: p, s and d).
#[derive(Clone, Copy, Debug, PartialEq, Eq)]
pub struct Counts {
    pub p: u8,
    pub s: u16,
    pub d: u16,
}

// The first bit of each list, and how far apart sections are. The bytes that it is of are no field: a word or a sheet is
// looked at through it and by itself, and a struct of both would be made for each of the calls that take both.
#[derive(Clone, Copy)]
pub struct View {
    pub multiplex: u32,
    pub tail: u32,
    pub pipes: u32,
    pub streams: u32,
    pub sections: u32,
    pub apart: u32,
}

// A word with p payload pipes and s streams: multiplex, pipes, tail, streams, sections. No place depends on d, so that here and below no Counts is asked for.
pub fn of_word(p: u8, s: u16) -> View
    ensures { result ≡ word_view p s }
{
    let tail = MULTIPLEX + PIPE * u32::from(p);
    let streams = tail + TAIL;
    View {
        multiplex: 0,
        tail,
        pipes: MULTIPLEX,
        streams,
        sections: streams + STREAM * u32::from(s),
        apart: SECTION,
    }
}

// A sheet with a header of h bytes, p payload pipes and s streams: header, multiplex, tail, pipes, streams, sections.
pub fn of_sheet(h: u8, p: u8, s: u16) -> View
    ensures { result ≡ sheet_view h p s }
{
    let multiplex = 8 * u32::from(h);
    let tail = multiplex + MULTIPLEX;
    let pipes = tail + TAIL;
    let streams = pipes + PIPE * u32::from(p);
    View {
        multiplex,
        tail,
        pipes,
        streams,
        sections: streams + STREAM * u32::from(s) + ABOVE,
        apart: SECTION + ABOVE,
    }
}

// The bit behind the lists of a word with these counts (table 14).
pub fn lists_end(counts: Counts) -> u32
    ensures { result ≡ size counts.p counts.s counts.d }
{
    of_word(counts.p, counts.s).sections + SECTION * u32::from(counts.d)
}
