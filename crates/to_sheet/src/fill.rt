// The sheet of an accepted word, written part by part into the front of the lent room.
ghost use Rattle.std.specs.Prelude.{◌≡◌, ◌∷◌, ◌+◌, ◌*◌, ◌/◌, ◌≤◌, length, drop};
ghost use Rattle.std.proofs.Math.Seq.{paste};
ghost use Rattle.bits.specs.Lists.{unpack, pack};
ghost use Rattle.description.specs.Rows.{cuts, joins};
ghost use Rattle.description.specs.Fields.{table19};
ghost use Rattle.description.specs.Sheet.{in_sheet, sheet_of};
ghost use Rattle.description.specs.Word.{lists_in, front};
ghost use Rattle.to_sheet.specs.Filled.{Fillable};

use byte_runs::copy_between;
use views::{Counts, FORM1, SECTION, of_sheet, of_word};

// The d sections that stand at a bit place of a word, two bytes each, into a slice from the byte of another bit place on.
fn copy_sections(w: &[u8], at: u32, d: u16, out: &mut [u8], to: u32)
    requires { (at + 12 * d ≤ 8 * length w.now) × (to / 8 + 2 * d ≤ length out.old) }
    ensures { out.new ≡ paste out.old (to / 8) (pack (2 * d) (joins (4 ∷ table19) (in_sheet (cuts table19 d (drop at (unpack w.now)))))) (2 * d) }
{
    let to = (to / 8) as usize;
    let width = SECTION as usize;
    for k in 0..d as usize {
        let section = bits::field(w, at as usize + width * k, width) as u16;
        let place = to + 2 * k;
        out[place..place + 2].copy_from_slice(&section.to_be_bytes());
    }
}

// The sheet of a word of 96 bytes with these counts; the bytes past it stay.
pub fn fill(word: &[u8], counts: Counts, out: &mut [u8])
    requires { Fillable word.now counts.p counts.s counts.d out.old }
    ensures { out.new ≡ front (sheet_of (lists_in (unpack word.now))) out.old }
{
    let from = of_word(counts.p, counts.s);
    let to = of_sheet(FORM1, counts.p, counts.s);
    let head = headers::header_of(FORM1, counts.p, counts.s as u8, counts.d as u8);
    out[..FORM1 as usize].copy_from_slice(&head);
    // all lists but the sections are whole bytes, and each ends where the next one begins
    copy_between(word, from.multiplex, from.pipes, out, to.multiplex);
    copy_between(word, from.tail, from.streams, out, to.tail);
    copy_between(word, from.pipes, from.tail, out, to.pipes);
    copy_between(word, from.streams, from.sections, out, to.streams);
    copy_sections(word, from.sections, counts.d, out, to.sections);
}
