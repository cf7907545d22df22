// The lines of payload pipes and of the tail in a sheet's listing (document 01, "Points on either side"), put into a buffer: each function returns the place
// behind its text.
#![tactic(auto)]

ghost use Rattle.ground.specs.Outcome.{Is};
ghost use Rattle.description.specs.Fields.{table16, table16b};
ghost use Rattle.views.specs.Rows.{row_at, rows_at};
ghost use Rattle.words.specs.Words.{put};
ghost use Rattle.pipe_lines.specs.Lines.{pipe_lines, tail_line};

// The lines of p payload pipes, whose records begin at a place.
pub fn pipes(sheet: &[u8], at: u32, p: u8, out: &mut [u8], to: usize) -> usize
    ensures { Is (put out.old to (pipe_lines 1 (rows_at table16 48 p sheet.now at))) result out.new }
{
    let mut next = to;
    for i in 0..p {
        let q = records::pipe_at(sheet, at, i);
        next = words::line(
            out,
            next,
            b"pipe # pattern=# width=# streams=# sections=#\n",
            &[i as u32 + 1, q.pattern, q.width, q.s as u32, q.d as u32],
        );
    }
    next
}

// The line of the tail.
pub fn tail(sheet: &[u8], at: u32, out: &mut [u8], to: usize) -> usize
    ensures { Is (put out.old to (tail_line (row_at table16b sheet.now at))) result out.new }
{
    let width = records::tail_at(sheet, at);
    if width == 0 {
        return words::line(out, to, b"tail unused\n", &[]);
    }
    words::line(out, to, b"tail width=#\n", &[width])
}
