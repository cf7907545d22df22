// The word of an accepted sheet: the lists in the order of table 14, zeros behind them, and the CRC.
ghost use Rattle.std.specs.Prelude.{◌≡◌, ◌+◌, ◌*◌, ◌≤◌};
ghost use Rattle.bits.specs.Lists.{unpack};
ghost use Rattle.description.specs.Layout.{word_of};
ghost use Rattle.description.specs.Sheet.{form1};
ghost use Rattle.description.specs.Form1.{sheet_lists};
ghost use Rattle.to_word.specs.Laid.{Waits, Placed, Seals, Stated};

use byte_runs::copy_between;
use ground::{SIGNALLING_LISTS, SIGNALLING_WORD};
use views::{Counts, FORM1, SECTION, View, of_sheet, of_word};
use wide::{Wide, put};

// A sink at a place of the word: of the bits before it those that share its four bytes wait.
fn waiting(word: &[u8; SIGNALLING_WORD], place: usize) -> Wide
    ensures { Waits word.now place result }
{
    let used = place % 32;
    Wide {
        acc: bits::field(word, place - used, used) as u64,
        used,
        at: place / 32 * 4,
    }
}

// The d sections of a sheet to a place of the word, and zeros behind them.
fn put_sections(word: &mut [u8; SIGNALLING_WORD], at: u32, sheet: &[u8], from: View, d: u16)
    requires { (from.apart ≤ 32) × (at + 12 * d ≤ 750) }
    ensures { Placed sheet.now from.sections from.apart d at word.old word.new }
{
    let mut sink = waiting(word, at as usize);
    for k in 0..d as usize {
        let place = from.sections as usize + from.apart as usize * k;
        let section = bits::field(sheet, place, SECTION as usize);
        sink = put(word, sink, section as u64, SECTION as usize);
    }
    let end = put(word, sink, 0, 32 - sink.used);
    word[end.at..].fill(0);
}

// The CRC over the first 750 bits behind them (table 14).
fn seal(word: &mut [u8; SIGNALLING_WORD])
    ensures { Seals word.old word.new }
{
    let crc = crc::crc12(word, 0, SIGNALLING_LISTS) as u64;
    let sink = waiting(word, SIGNALLING_LISTS);
    // 12 bits, and the six spare ones, which are zero
    put(word, sink, crc * 64, 18);
}

// The word of a sheet's lists, into 96 bytes.
pub fn lay(word: &mut [u8; SIGNALLING_WORD], sheet: &[u8], counts: Counts)
    requires { Stated sheet.now counts.p counts.s counts.d }
    ensures { word.new ≡ word_of (sheet_lists form1 counts.p counts.s counts.d (unpack sheet.now)) }
{
    let from = of_sheet(FORM1, counts.p, counts.s);
    let to = of_word(counts.p, counts.s);
    // all lists but the sections are whole bytes, and each ends where the next one begins
    copy_between(sheet, from.multiplex, from.tail, word, to.multiplex);
    copy_between(sheet, from.pipes, from.streams, word, to.pipes);
    copy_between(sheet, from.tail, from.pipes, word, to.tail);
    copy_between(sheet, from.streams, from.sections, word, to.streams);
    put_sections(word, to.sections, sheet, from, counts.d);
    seal(word);
}
