// One payload filled from the queue: what is left of the open packet, whole packets while they fit, and then the packet that runs on into
// the next word, or padding.
ghost use Rattle.std.specs.Prelude.{◌≡◌, true, false, ◌+◌, ◌<◌, ◌≤◌, eqb, length, take, drop};
ghost use Rattle.ground.specs.Choice.{choose};
ghost use Rattle.byte_runs.specs.Runs.{copied};
ghost use Rattle.ip.specs.Packet.{header};
ghost use Rattle.ip.specs.Memory.{queue_in};
ghost use Rattle.ip_queue.specs.Places.{length_at, packet_at};
ghost use Rattle.ip_queue.specs.Looking.{Ready};
ghost use Rattle.ip_write.specs.Steps.{header_number, begun_with, Waits, Laid, Same, NoneFits, Ended, Carries};

use infoword::TRANSPORT_BYTES as PAYLOAD;
use ip_queue::HEAD;

// A packet's header in the stream, in bytes (table 6).
const HEADER: usize = 2;

// Up to where the payload is laid, and up to where the queue is done with. Queue and payload are no fields of it: lent as one, each step
// would have to promise that the queue and the places stay.
#[derive(Clone, Copy)]
struct Place {
    at: usize,
    from: usize,
}

// What a word leaves: how many bytes of the queue are done with, and how much is sent of the packet that is then first.
#[derive(Clone, Copy)]
pub struct Progress {
    pub done: u32,
    pub sent: u32,
}

// The length of the packet at a place of the queue. ip_queue has its own for the first: a public one could not ask that the bytes are there.
fn length_at(queue: &[u8], at: usize) -> usize
    requires { at + 4 ≤ length queue.now }
    ensures { (result ≡ length_at queue.now at) × (result < 65536) }
{
    byte_runs::two(queue[at + 2], queue[at + 3])
}

// A packet's header as one number (table 6): IP_Packet_Type, the byte that the queue has, IP_Packet_Error, IP_Packet_Length, RFU 0.
fn header_number(kind: u8, error: u8, n: usize) -> usize
    requires { n < 65536 }
    ensures { result ≡ header_number kind (choose (eqb error 0) 0 1) n }
{
    kind as usize * 0x4000 + ip_head::error_bit(error) * 0x2000 + n * 2
}

// The header of the packet at a place of the queue.
fn put_header(queue: &[u8], from: usize, payload: &mut [u8], at: usize)
    requires { Waits queue.now from × (at + 2 ≤ length payload.old) }
    ensures { payload.new ≡ copied (header (packet_at queue.now from)) payload.old at }
{
    let n = length_at(queue, from);
    let v = header_number(queue[from], queue[from + 1], n) as u16;
    byte_runs::copy(&v.to_be_bytes(), payload, at);
}

// n bytes of the queue from a place on.
fn put_part(queue: &[u8], from: usize, n: usize, payload: &mut [u8], at: usize)
    requires { from + n ≤ length queue.now }
    ensures { payload.new ≡ copied (take n (drop from queue.now)) payload.old at }
{
    byte_runs::copy(&queue[from..from + n], payload, at);
}

// A packet of the queue: its header, and the first n bytes of its data, all of them or as many as fit.
fn put_packet(queue: &[u8], from: usize, n: usize, payload: &mut [u8], at: usize)
    requires { Waits queue.now from × (n ≤ length_at queue.now from) × (at + 2 + n ≤ length payload.old) }
    ensures { payload.new ≡ copied (begun_with n (packet_at queue.now from)) payload.old at }
{
    put_header(queue, from, payload, at);
    put_part(queue, from + HEAD, n, payload, at + HEADER);
}

// Packets of the queue while they fit as a whole. A while: it steps by the lengths that it reads, and the place where it stops is the answer,
// which a rest of a slice does not have.
fn put_packets(queue: &[u8], payload: &mut [u8], place: Place) -> Place
    requires { Laid queue.now payload.old place.at place.from }
    ensures { Laid queue.now payload.new result.at result.from × Same queue.now payload.old place.at place.from payload.new result.at result.from × NoneFits queue.now result.at result.from }
{
    let Place { mut at, mut from } = place;
    while from < queue.len() {
        let n = length_at(queue, from);
        if PAYLOAD - at < n + HEADER {
            return Place { at, from };
        }
        put_packet(queue, from, n, payload, at);
        at += n + HEADER;
        from += n + HEAD;
    }
    Place { at, from }
}

// Whether a packet is begun behind whole packets: one waits, and its header fits.
fn begins(at: usize, from: usize, end: usize) -> bool
    ensures { (result ≡ true → (from < end) × (at ≤ 1502)) × (result ≡ false → from < end → 1502 < at) }
{
    // at 1,503 it waits for the next word
    from < end && ip_head::fits(at)
}

// What is left of the payload behind whole packets: a packet is begun, at 1,502 with none of its data; or all of it is FF, the header FF FF
// and the padding behind it.
fn put_end(queue: &[u8], payload: &mut [u8], place: Place) -> Progress
    requires { Laid queue.now payload.old place.at place.from × NoneFits queue.now place.at place.from }
    ensures { Ended queue.now payload.old place.at place.from payload.new result.done result.sent }
{
    let Place { at, from } = place;
    if begins(at, from, queue.len()) {
        put_packet(queue, from, PAYLOAD - HEADER - at, payload, at);
        return Progress {
            done: from as u32,
            sent: (PAYLOAD - at) as u32,
        };
    }
    byte_runs::fill(payload, at, 0xFF);
    Progress {
        done: from as u32,
        sent: 0,
    }
}

// The payload from a place on.
fn put_rest(queue: &[u8], payload: &mut [u8], place: Place) -> Progress
    requires { Laid queue.now payload.old place.at place.from }
    ensures { Ended queue.now payload.old place.at place.from payload.new result.done result.sent }
{
    let end = put_packets(queue, payload, place);
    put_end(queue, payload, end)
}

// One payload filled from the queue, of whose first packet earlier words carry `sent` bytes, its header counted. The two stand beside each other
// as `write` has them: what holds of both is asked for here alone.
pub fn fill(queue: &[u8], sent: u32, payload: &mut [u8]) -> Progress
    requires { Ready queue.now sent × (length payload.old ≡ 1504) }
    ensures { Carries sent (queue_in 0 queue.now).packets payload.new result.done result.sent }
{
    if sent == 0 {
        return put_rest(queue, payload, Place { at: 0, from: 0 });
    }
    // `sent` counts the header: from here on the first packet's data is still to come, and this much of it
    let begin = sent as usize + HEAD - HEADER;
    let left = length_at(queue, 0) + HEADER - sent as usize;
    put_part(queue, begin, left.min(PAYLOAD), payload, 0);
    if PAYLOAD < left {
        return Progress {
            done: 0,
            sent: sent + PAYLOAD as u32,
        };
    }
    put_rest(
        queue,
        payload,
        Place {
            at: left,
            from: begin + left,
        },
    )
}
