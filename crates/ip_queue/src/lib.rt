// The queue of packets that wait for an IP stream (clause 4.3.4), looked at before a word is written: each packet as four bytes (type; error;
// length, two bytes) and its data, packet after packet.
#![tactic(auto)]

ghost use Rattle.std.specs.Prelude.{◌≡◌, ◌+◌, ◌<◌, ◌≤◌, length};
ghost use Rattle.ground.specs.Refusals.{status};
ghost use Rattle.ip.specs.Memory.{queue_in};
ghost use Rattle.ip.specs.Write.{to_come};
ghost use Rattle.ip_queue.specs.Places.{length_at};
ghost use Rattle.ip_queue.specs.Looking.{misplaced, Ready, told, front_of};

use ground::refusal::Refusal;
use ip_head::unsendable;

// The four bytes before a packet's data.
pub const HEAD: usize = 4;

// The refusal of a queue: 19 for a packet that is not sent, 1 for an end inside a packet or its four bytes, whichever comes first.
// A while: it steps by the lengths that it reads.
fn fault(queue: &[u8]) -> Result<(), Refusal>
    ensures { status result ≡ (queue_in 0 queue.now).number }
{
    let mut rest = queue;
    while let [kind, _, high, low, behind @ ..] = rest {
        let n = byte_runs::two(*high, *low);
        if unsendable(*kind, n) {
            return Err(Refusal::PacketsWrong);
        }
        if behind.len() < n {
            return Err(Refusal::LengthWrong);
        }
        rest = &behind[n..];
    }
    if rest.is_empty() {
        Ok(())
    } else {
        Err(Refusal::LengthWrong)
    }
}

// The length of the packet that is first.
fn first_length(queue: &[u8]) -> usize
    requires { 4 ≤ length queue.now }
    ensures { (result ≡ length_at queue.now 0) × (result < 65536) }
{
    byte_runs::two(queue[2], queue[3])
}

// Whether `sent` is out of place: above 0 with no packet, 1 (a header is never split), or as much as the first packet and its header.
fn out_of_place(queue: &[u8], sent: u32) -> bool
    requires { (queue_in 0 queue.now).number ≡ 0 }
    ensures { result ≡ misplaced sent (queue_in 0 queue.now).packets }
{
    if queue.is_empty() {
        return 0 < sent;
    }
    sent == 1 || first_length(queue) + 1 < sent as usize
}

// How many bytes of the packet that is open are still to come. Queue and `sent` stand beside each other, as in `look`: a
// struct of both would be made for this call alone.
fn to_come(queue: &[u8], sent: u32) -> usize
    requires { Ready queue.now sent }
    ensures { result ≡ to_come sent (queue_in 0 queue.now).packets }
{
    if sent == 0 {
        return 0;
    }
    // its header of two bytes is counted
    first_length(queue) + 2 - sent as usize
}

// Looks at the queue that a word is to be filled from, of whose first packet earlier words carry `sent` bytes, its header counted: why it
// is refused, that of the queue itself first and then 1 for `sent` out of place; where it is not, First_Header_Address.
pub fn look(queue: &[u8], sent: u32) -> Result<u32, Refusal>
    ensures { told result ≡ front_of sent queue.now }
{
    fault(queue)?;
    if out_of_place(queue, sent) {
        return Err(Refusal::LengthWrong);
    }
    // behind what is still to come, also where padding begins there
    let rest = to_come(queue, sent);
    Ok(ip_head::address_after(rest) as u32)
}
