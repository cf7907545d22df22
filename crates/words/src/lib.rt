// Text put into a buffer from a place on: each function returns the place behind what it put. What has no room behind the place is left out.
// Buffer and place are two parameters: `line`, and pipe_lines' `pipes` and `tail`, are public and promise the place that they return.
#![tactic(auto)]

ghost use Rattle.std.specs.Prelude.{[], ◌∷◌};
ghost use Rattle.ground.specs.Outcome.{Is};
ghost use Rattle.words.specs.Words.{decimal, filled, put};

// One byte.
fn byte(out: &mut [u8], at: usize, b: u8) -> usize
    ensures { Is (put out.old at (b ∷ [])) result out.new }
{
    if at < out.len() {
        out[at] = b;
        return at + 1;
    }
    at
}

// A number in decimal: the digits of its tenth, where there are any, and then its last digit.
// By hand: std's Write for a slice promises how many bytes it puts and not which, and a Write of our own would be longer.
fn number(out: &mut [u8], at: usize, v: u32) -> usize
    ensures { Is (put out.old at (decimal v)) result out.new }
{
    if v < 10 {
        return byte(out, at, b'0' + v as u8);
    }
    let to = number(out, at, v / 10);
    byte(out, to, b'0' + (v % 10) as u8)
}

// A text with numbers: the sign # stands for the next number, and for 0 past the last.
pub fn line(out: &mut [u8], at: usize, text: &[u8], numbers: &[u32]) -> usize
    ensures { Is (put out.old at (filled text.now numbers.now)) result out.new }
{
    let mut to = at;
    let mut left = numbers.iter();
    for &c in text {
        to = if c == b'#' {
            number(out, to, left.next().copied().unwrap_or(0))
        } else {
            byte(out, to, c)
        };
    }
    to
}
