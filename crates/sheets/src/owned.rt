// What the pipes own together, and by it where a pipe's own streams and sections stand (clauses 4.10.3 and 4.10.7).
ghost use Rattle.std.specs.Prelude.{◌≡◌};
ghost use Rattle.sheets.specs.Owned.{owned_at, tail_owned_at, places_at};

use records::{pipe_at, tail_at};
use views::View;

// Streams and sections.
#[derive(Clone, Copy)]
pub struct Share {
    pub s: u16,
    pub d: u16,
}

// What the first p of the payload pipes own whose records begin at a place.
pub fn owned_at(w: &[u8], at: u32, p: u8) -> Share
    ensures { result ≡ owned_at w.now at p }
{
    let mut s = 0;
    let mut d = 0;
    for i in 0..p {
        let pipe = pipe_at(w, at, i);
        s += pipe.s;
        d += pipe.d;
    }
    Share { s, d }
}

// The streams of the tail pipe whose record stands at a place.
pub fn tail_owned_at(w: &[u8], at: u32) -> u16
    ensures { result ≡ tail_owned_at w.now at }
{
    u16::from(tail_at(w, at) != 0)
}

// Where the record, the streams and the sections of a pipe stand.
#[derive(Clone, Copy)]
pub struct Places {
    pub pipe: usize,
    pub streams: usize,
    pub sections: usize,
}

// Those of the payload pipe k, counted from 0.
pub fn places_of(w: &[u8], v: View, k: u8) -> Places
    ensures { result ≡ places_at w.now v k }
{
    let own = owned_at(w, v.pipes, k);
    Places {
        pipe: v.pipes as usize + views::PIPE as usize * k as usize,
        streams: v.streams as usize + views::STREAM as usize * own.s as usize,
        sections: v.sections as usize + v.apart as usize * own.d as usize,
    }
}
