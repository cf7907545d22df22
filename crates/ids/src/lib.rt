// The test 11: the ids of streams that stand at a place, in a word or in a sheet.
#![tactic(auto)]

ghost use Rattle.std.specs.Prelude.{◌≡◌};
ghost use Rattle.bits.specs.Places.{fields_at};
ghost use Rattle.description.specs.Tests.{id_fault};

// 11: whether an id stands twice among the s streams at a place. They are gone through from the last to the first, and the ids behind are seen:
// a flag for each id, since a set takes a heap.
pub fn id_twice(w: &[u8], at: u32, s: u16) -> bool
    ensures { result ≡ id_fault (fields_at w.now at 16 8 s) }
{
    let mut seen = [false; 256];
    for i in (0..s as usize).rev() {
        // STS_ID (table 18)
        let id = bits::field(w, at as usize + views::STREAM as usize * i, 8) as usize;
        if seen[id] {
            return true;
        }
        seen[id] = true;
    }
    false
}
