// The reader of a lent word (01, "Expected forms by place"): the word and a bit place. Its methods are thin: each makes it or takes it apart.
ghost use Rattle.std.specs.Prelude.{◌≡◌, ◌%◌};
ghost use Rattle.bits.specs.Places.{field_at};
ghost use Rattle.sheets.specs.Owned.{owned_at, tail_owned_at};
ghost use Rattle.steps.specs.Steps.{onward};

use sheets::owned::Share;

#[derive(Clone, Copy)]
pub struct Reader<'a> {
    pub word: &'a [u8],
    pub at: u32,
}

impl<'a> Reader<'a> {
    // The reader of a word, at its first bit.
    pub fn new(word: &'a [u8]) -> Reader<'a>
        ensures { (result.word ≡ word.entry) × (result.at ≡ 0) }
    {
        Reader { word, at: 0 }
    }

    // The number in the n bits at the reader's place.
    pub fn bits(self, n: usize) -> u32
        ensures { result ≡ field_at self.entry.word.now self.entry.at n }
    {
        steps::bits_at(self.word, self.at, n)
    }

    // The reader behind n records of so many bits.
    pub fn moved(self, n: u16, width: u32) -> Reader<'a>
        ensures { (result.word ≡ self.entry.word) × (result.at ≡ onward self.entry.at n width) }
    {
        Reader {
            word: self.word,
            at: steps::onward(self.at, n, width),
        }
    }

    // Num_Pipes_1 (table 15) at the reader's place.
    pub fn pipes(self) -> u16
        ensures { result ≡ field_at self.entry.word.now self.entry.at 4 }
    {
        steps::pipes_at(self.word, self.at)
    }

    // What the p payload pipes at the reader's place own; p counts in 8 bits.
    pub fn owned(self, p: u16) -> Share
        ensures { result ≡ owned_at self.entry.word.now self.entry.at (p % 256) }
    {
        steps::owned_by(self.word, self.at, p)
    }

    // The streams of the tail pipe at the reader's place.
    pub fn tail(self) -> u16
        ensures { result ≡ tail_owned_at self.entry.word.now self.entry.at }
    {
        sheets::owned::tail_owned_at(self.word, self.at)
    }
}
