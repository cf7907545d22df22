// The walk over the bits of a lent word: one reader that carries the word and its place, made once, and moved on from list to list.
#![tactic(auto)]

mod reader;

ghost use Rattle.std.specs.Prelude.{◌≡◌};
ghost use Rattle.walk.specs.Tour.{tour_of};

use crate::reader::Reader;
use views::{Counts, PIPE, SECTION, STREAM, TAIL};

// What a walk finds: Sig_Pipe_Ver, how many payload pipes, streams and sections a word has, and the bit behind its lists.
#[derive(Clone, Copy)]
pub struct Toured {
    pub version: u32,
    pub counts: Counts,
    pub end: u32,
}

// One walk over a word, in the order of table 14; a place past the end reads zero.
pub fn tour(word: &[u8]) -> Toured
    ensures { result ≡ tour_of word.now }
{
    let r = Reader::new(word);
    // the multiplex (table 15): Sig_Pipe_Ver in its first 4 bits, Num_Pipes_1 in its last
    let version = r.bits(4);
    let r = r.moved(1, 52);
    let p = r.pipes();
    let r = r.moved(1, 4);
    // the payload pipes (table 16)
    let own = r.owned(p);
    let r = r.moved(p, PIPE);
    // the tail pipe (table 16b)
    let tail = r.tail();
    let r = r.moved(1, TAIL);
    // streams (table 18), then sections (table 19)
    let all = steps::with_tail(own, tail);
    let r = r.moved(all.s, STREAM);
    let r = r.moved(all.d, SECTION);
    Toured {
        version,
        counts: Counts {
            p: p as u8,
            s: all.s,
            d: all.d,
        },
        end: r.at,
    }
}
