// The open packet in lent memory: 1, type, error, 0, length (two bytes), how many bytes are there so far (two), those bytes, zeros.
ghost use Rattle.std.specs.Prelude.{◌≡◌, ◌≤◌, ◌<◌, take, drop};
ghost use Rattle.ip.specs.Read.{begun};
ghost use Rattle.ip.specs.Memory.{open_bytes};

use ip_open::{Opened, ROOM};

// Where the packet's own bytes begin.
pub const FRONT: usize = 8;

// The packet is open with the bytes that stand in the memory: its numbers in front of them, and zeros behind them, whatever was there.
pub fn settle(memory: &mut [u8; ROOM], o: Opened)
    requires { (o.length < 65536) × (o.sofar ≤ 4096) }
    ensures { memory.new ≡ open_bytes (begun o.kind o.error o.length (take o.sofar (drop 8 memory.old))) }
{
    let [n1, n2] = (o.length as u16).to_be_bytes();
    let [k1, k2] = (o.sofar as u16).to_be_bytes();
    byte_runs::copy(&[1, o.kind, o.error, 0, n1, n2, k1, k2], memory, 0);
    byte_runs::fill(memory, FRONT + o.sofar, 0);
}
