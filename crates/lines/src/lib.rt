// The lines of an accepted sheet's listing (document 01, "Points on either side"), put into a buffer.
#![tactic(auto)]

ghost use Rattle.ground.specs.Outcome.{Is};
ghost use Rattle.description.specs.Sheet.{form1};
ghost use Rattle.views.specs.View.{sheet_view, lists_at};
ghost use Rattle.words.specs.Words.{put};
ghost use Rattle.lines.specs.Lines.{accepted};

use views::{Counts, FORM1};

// All lines, of a sheet with these counts.
pub fn lines(sheet: &[u8], counts: Counts, out: &mut [u8]) -> usize
    ensures { Is (put out.old 0 (accepted (lists_at (sheet_view form1 counts.p counts.s) counts.p counts.s counts.d sheet.now))) result out.new }
{
    let Counts { p, s, d } = counts;
    let v = views::of_sheet(FORM1, p, s);
    let m = records::multiplex_at(sheet, v.multiplex);
    let to = words::line(
        out,
        0,
        b"multiplex operator=# frame=# pipes=# streams=# sections=#\n",
        &[m.operator, m.frame, p as u32, s as u32, d as u32],
    );
    let to = pipe_lines::pipes(sheet, v.pipes, p, out, to);
    let to = pipe_lines::tail(sheet, v.tail, out, to);
    words::line(out, to, b"ok\n", &[])
}
