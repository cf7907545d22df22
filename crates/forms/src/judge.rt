// The tests of a sheet's records, over counts that are given: those that its header states, or others that were worked out.
ghost use Rattle.std.specs.Prelude.{◌≡◌};
ghost use Rattle.ground.specs.Refusals.{status};
ghost use Rattle.bits.specs.Places.{fields_at};
ghost use Rattle.description.specs.Tests.{any_set};
ghost use Rattle.description.specs.Form1.{count_fault};
ghost use Rattle.views.specs.View.{lists_at};
ghost use Rattle.forms.specs.Records.{record_fault};

use ground::refusal::Refusal;
use views::{ABOVE, Counts, SECTION, View};

// A section, with the four bits above it.
const APART: usize = (SECTION + ABOVE) as usize;

// 14: whether one of the four bits above one of the d sections is set; those above the first stand at a place.
fn top_set(sheet: &[u8], at: u32, d: u16) -> bool
    ensures { result ≡ any_set (fields_at sheet.now at 16 4 d) }
{
    (0..d).any(|k| bits::field(sheet, at as usize + APART * k as usize, ABOVE as usize) != 0)
}

// 13: whether the counts differ from what the records say.
fn counts_differ(sheet: &[u8], v: View, counts: Counts) -> bool
    ensures { result ≡ count_fault counts.p counts.s counts.d (lists_at v counts.p counts.s counts.d sheet.now) }
{
    let own = sheets::owned::owned_at(sheet, v.pipes, counts.p);
    counts.p != records::multiplex_at(sheet, v.multiplex).pipes
        || counts.s != own.s + sheets::owned::tail_owned_at(sheet, v.tail)
        || counts.d != own.d
}

// The tests of a sheet with a header of h bytes, in their order: refused by the first that finds something.
pub fn record_fault(sheet: &[u8], h: u8, counts: Counts) -> Result<(), Refusal>
    ensures { status result ≡ record_fault h counts.p counts.s counts.d sheet.now }
{
    let v = views::of_sheet(h, counts.p, counts.s);
    if top_set(sheet, v.sections - ABOVE, counts.d) {
        return Err(Refusal::TopBitsSet);
    }
    if records::multiplex_at(sheet, v.multiplex).version != 0 {
        return Err(Refusal::VersionNot0);
    }
    if counts_differ(sheet, v, counts) {
        return Err(Refusal::CountsDiffer);
    }
    if ground::SIGNALLING_LISTS < views::lists_end(counts) as usize {
        return Err(Refusal::ListsPass750);
    }
    faults::list_fault(sheet, v, counts.p, counts.s)
}
