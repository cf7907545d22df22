// The first pass over a payload, which writes nothing: whether it is refused, with 19.
ghost use Rattle.std.specs.Prelude.{◌≡◌, drop};
ghost use Rattle.ip.specs.Read.{stray, walk, reading};
ghost use Rattle.ip.specs.Memory.{open_in};

use ip_head::{address_after, head_of, is_padding, unfit};
use ip_open::{ROOM, open_in};

// What stands from a place on: nothing, where that is past the end.
fn from(bytes: &[u8], at: usize) -> &[u8]
    ensures { result.now ≡ drop at bytes.now }
{
    bytes.get(at..).unwrap_or(&[])
}

// Whether some byte is not FF.
fn has_stray(bytes: &[u8]) -> bool
    ensures { result ≡ stray bytes.now }
{
    bytes.iter().any(|b| *b != 255)
}

// Whether the packets are refused whose first header stands in front. A while: it steps by the lengths that it reads.
fn heads_refused(bytes: &[u8]) -> bool
    ensures { result ≡ (walk 0 bytes.now).refused }
{
    let mut left = bytes;
    while let [a, b, behind @ ..] = left {
        if is_padding(*a, *b) {
            return has_stray(behind);
        }
        let h = head_of(*a, *b);
        if unfit(h) {
            return true;
        }
        // a packet that runs on takes the rest
        left = from(behind, h.length);
    }
    // no header fits into a last byte
    has_stray(left)
}

// Whether a payload is refused.
pub fn payload_refused(payload: &[u8], memory: &[u8; ROOM], address: usize) -> bool
    ensures { result ≡ (reading (open_in memory.now) address payload.now).refused }
{
    let Ok(o) = open_in(memory) else {
        return heads_refused(from(payload, address));
    };
    let rest = o.length - o.sofar;
    address != address_after(rest) || heads_refused(from(payload, rest))
}
