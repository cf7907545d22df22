// The header of a sheet (document 01, "Sheet"): written for counts that are given, and what it states, with its test.
#![tactic(auto)]

ghost use Rattle.std.specs.Prelude.{◌≡◌, ◌<◌};
ghost use Rattle.description.specs.Sheet.{header, pipes_from, streams_from, sections_from, sheet_end};
ghost use Rattle.description.specs.Header.{two_at, header_fault};

// The bytes of multiplex and tail behind a header, and those of a payload pipe, a stream and a section, as document 01 counts a sheet; views has their bits.
const MULTIPLEX_AND_TAIL: u16 = 9;

const PIPE: u16 = 6;

const STREAM: u16 = 2;

const SECTION: u16 = 2;

// Where the tables of payload pipes, streams and sections begin, and the whole length.
#[derive(Clone, Copy)]
struct Offsets {
    pipes: u16,
    streams: u16,
    sections: u16,
    end: u16,
}

impl Offsets {
    // Those of a sheet with these counts, behind a header of h bytes.
    fn of(h: u8, p: u8, s: u8, d: u8) -> Offsets
        ensures { result ≡ record { pipes = pipes_from h; streams = streams_from h p; sections = sections_from h p s; end = sheet_end h p s d } }
    {
        let pipes = u16::from(h) + MULTIPLEX_AND_TAIL;
        let streams = pipes + PIPE * u16::from(p);
        let sections = streams + STREAM * u16::from(s);
        Offsets {
            pipes,
            streams,
            sections,
            end: sections + SECTION * u16::from(d),
        }
    }
}

// The header of a sheet with these counts.
pub fn header_of(h: u8, p: u8, s: u8, d: u8) -> [u8; 12]
    ensures { result ≡ header h p s d }
{
    let o = Offsets::of(h, p, s, d);
    let mut header = [p, s, d, 0, 0, 0, 0, 0, 0, 0, 0, 0];
    header[4..6].copy_from_slice(&o.pipes.to_be_bytes());
    header[6..8].copy_from_slice(&o.streams.to_be_bytes());
    header[8..10].copy_from_slice(&o.sections.to_be_bytes());
    header[10..].copy_from_slice(&o.end.to_be_bytes());
    header
}

// The number in two bytes of a sheet.
fn two_at(sheet: &[u8], i: usize) -> u16
    requires { i < 4096 }
    ensures { result ≡ two_at sheet.now i }
{
    u16::from_be_bytes([bits::byte(sheet, i), bits::byte(sheet, i + 1)])
}

// 12: whether a header of h bytes is wrong.
pub fn header_wrong(sheet: &[u8], h: u8) -> bool
    ensures { result ≡ header_fault h sheet.now }
{
    let o = Offsets::of(
        h,
        bits::byte(sheet, 0),
        bits::byte(sheet, 1),
        bits::byte(sheet, 2),
    );
    sheet.len() < usize::from(o.pipes)
        || bits::byte(sheet, 3) != 0
        || two_at(sheet, 4) != o.pipes
        || two_at(sheet, 6) != o.streams
        || two_at(sheet, 8) != o.sections
        || two_at(sheet, 10) != o.end
        || sheet.len() != usize::from(o.end)
}
