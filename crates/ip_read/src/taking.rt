// The second pass, over a payload that is not refused: the packets that end in it are handed out, and what is then open is kept.
ghost use Rattle.std.specs.Prelude.{◌≡◌, false, ◌++◌, ◌+◌, ◌≤◌, ◌<◌, length, take, drop};
ghost use Rattle.byte_runs.specs.Runs.{copied};
ghost use Rattle.ip.specs.Read.{begun, reading};
ghost use Rattle.ip.specs.Memory.{queued, queue, open_bytes, open_in};
ghost use Rattle.ip_look.specs.Steps.{packet_of, walk_from};
ghost use Rattle.ip_read.specs.Steps.{four_of, begun_at, Ends, HandedOut, Followed, TakenIn};

use crate::held::{FRONT, settle};
use ip_head::LAST_HEADER;
use ip_look::PAYLOAD;
use ip_open::{Opened, ROOM};

// Where the walk over the headers stands, and how much is handed out. The packets are no field of it: lent as one, each step would have to
// promise that the places stay. Payload and memory are no struct either: each step would have to promise that the payload stays.
#[derive(Clone, Copy)]
pub struct Place {
    pub at: usize,
    pub out: usize,
}

// The four bytes before a packet that is handed out: type and error, which stay the bytes that a header or the memory has, and the length.
fn put_four(packets: &mut [u8], out: usize, kind: u8, error: u8, size: usize)
    requires { size < 65536 }
    ensures { packets.new ≡ copied (four_of kind error size) packets.old out }
{
    let [n1, n2] = (size as u16).to_be_bytes();
    byte_runs::copy(&[kind, error, n1, n2], packets, out);
}

// A packet at a place of what is handed out.
fn put_packet(packets: &mut [u8], out: usize, kind: u8, error: u8, run: &[u8])
    requires { (out + 4 + length run.now ≤ length packets.old) × (length run.now < 65536) }
    ensures { packets.new ≡ copied (queued (packet_of kind error run.now)) packets.old out }
{
    put_four(packets, out, kind, error, run.len());
    byte_runs::copy(run, packets, out + 4);
}

// Hands out the packets that are whole, from the header at a place on. The walk ends at a packet that runs on, where no header fits,
// and at FF FF, whose length of 4,095 runs on too. A while, as in ip_write: it steps by the lengths that it reads, and its place is the answer.
fn hand_out(payload: &[u8; PAYLOAD], from: usize, packets: &mut [u8], start: usize) -> Place
    requires { ((walk_from from payload.now).refused ≡ false)
        × (start + length (queue (walk_from from payload.now).packets) ≤ length packets.old) }
    ensures { HandedOut payload.now from start packets.old packets.new result }
{
    let mut at = from;
    let mut out = start;
    while at <= LAST_HEADER {
        let h = ip_head::head_of(payload[at], payload[at + 1]);
        let begin = at + 2;
        let end = begin + h.length;
        if payload.len() < end {
            return Place { at, out };
        }
        put_packet(packets, out, h.kind, h.error, &payload[begin..end]);
        out += 4 + h.length;
        at = end;
    }
    Place { at, out }
}

// The packet whose header stands at a place runs on: what is there of it becomes the open packet.
fn begin(payload: &[u8; PAYLOAD], at: usize, memory: &mut [u8; ROOM])
    requires { at ≤ 1502 }
    ensures { memory.new ≡ open_bytes (begun_at at payload.now) }
{
    let head = ip_head::head_of(payload[at], payload[at + 1]);
    let from = at + 2;
    byte_runs::copy(&payload[from..], memory, FRONT);
    settle(
        memory,
        Opened {
            kind: head.kind,
            error: head.error,
            length: head.length,
            sofar: payload.len() - from,
        },
    );
}

// What is open where the walk ended: a packet that runs on, or none.
fn keep(payload: &[u8; PAYLOAD], at: usize, memory: &mut [u8; ROOM])
    requires { Ends at payload.now }
    ensures { memory.new ≡ open_bytes (walk_from at payload.now).after }
{
    if LAST_HEADER < at || ip_head::is_padding(payload[at], payload[at + 1]) {
        memory.fill(0);
    } else {
        begin(payload, at, memory);
    }
}

// From the header at a place on: whole packets behind those that are handed out already, and what is then open into the memory. That nothing is
// refused is asked for here and in hand_out alone, and is no ghost field of a struct: each call would have to build it.
fn follow(
    payload: &[u8; PAYLOAD],
    from: usize,
    memory: &mut [u8; ROOM],
    packets: &mut [u8],
    start: usize,
) -> usize
    requires { ((walk_from from payload.now).refused ≡ false)
        × (start + length (queue (walk_from from payload.now).packets) ≤ length packets.old) }
    ensures { Followed (walk_from from payload.now) start memory.new packets.old packets.new result }
{
    let end = hand_out(payload, from, packets, start);
    keep(payload, end.at, memory);
    end.out
}

// The open packet takes the whole payload and runs on. That it has at most 4,095 bytes is asked here and below: see `Opened`.
fn go_on(payload: &[u8; PAYLOAD], memory: &mut [u8; ROOM], o: Opened)
    requires { (o.length ≤ 4095) × (o.sofar + 1504 < o.length) }
    ensures { memory.new
        ≡ open_bytes (begun o.kind o.error o.length (take o.sofar (drop 8 memory.old) ++ payload.now)) }
{
    byte_runs::copy(payload, memory, FRONT + o.sofar);
    settle(
        memory,
        Opened {
            sofar: o.sofar + payload.len(),
            ..o
        },
    );
}

// The open packet ends in this payload: its bytes so far and those that it lacked are handed out first.
fn hand_over(
    payload: &[u8; PAYLOAD],
    rest: usize,
    memory: &[u8; ROOM],
    o: Opened,
    packets: &mut [u8],
)
    requires { (o.length ≤ 4095) × (o.sofar + rest ≡ o.length) × (rest ≤ 1504) × (4 + o.length ≤ length packets.old) }
    ensures { packets.new
        ≡ copied (queued (packet_of o.kind o.error (take o.sofar (drop 8 memory.now) ++ take rest payload.now))) packets.old 0 }
{
    put_four(packets, 0, o.kind, o.error, o.length);
    let behind = FRONT + o.sofar;
    byte_runs::copy(&memory[FRONT..behind], packets, 4);
    byte_runs::copy(&payload[..rest], packets, 4 + o.sofar);
}

// Takes in a payload that is not refused: what is handed out goes to the front of packets, and its length is returned.
pub fn take_in(
    payload: &[u8; PAYLOAD],
    address: usize,
    memory: &mut [u8; ROOM],
    packets: &mut [u8],
) -> usize
    requires { (6604 ≤ length packets.old)
        × ((reading (open_in memory.old) address payload.now).refused ≡ false) }
    ensures { TakenIn (reading (open_in memory.old) address payload.now) memory.new packets.old packets.new result }
{
    let Ok(o) = ip_open::open_in(memory) else {
        return follow(payload, address, memory, packets, 0);
    };
    let rest = o.length - o.sofar;
    if payload.len() < rest {
        go_on(payload, memory, o);
        return 0;
    }
    hand_over(payload, rest, memory, o, packets);
    follow(payload, rest, memory, packets, 4 + o.length)
}
