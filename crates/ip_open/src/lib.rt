// The packet that is open in an IP stream, in the memory that a receiver lends from word to word: looked at, and dropped.
#![tactic(auto)]

ghost use Rattle.std.specs.Prelude.{◌≡◌, not, eqb, ltb};
ghost use Rattle.ground.specs.Outcome.{Is};
ghost use Rattle.ground.specs.Choice.{both};
ghost use Rattle.ground.specs.Refusals.{status};
ghost use Rattle.ip.specs.Memory.{unfit};
ghost use Rattle.ip_open.specs.Opening.{opened_in, told, dropping};

use ground::refusal::Refusal;

// The bytes of that memory.
pub const ROOM: usize = 4104;

// An open packet without its bytes. That its length is at most 4,095 is no ghost field: open_in tells also of numbers that are none of an
// open packet.
#[derive(Clone, Copy)]
pub struct Opened {
    // IP_Packet_Type and IP_Packet_Error as bytes, since any can stand in the memory; what is handed out has them as bytes too
    pub kind: u8,
    pub error: u8,
    pub length: usize,
    pub sofar: usize,
}

// Whether the numbers in front of the bytes are those of an open packet: 1, type 1 or 2, error 0 or 1, 0, length 1 to 4,095, and fewer
// bytes so far than that.
fn is_open(mark: u8, spare: u8, o: Opened) -> bool
    ensures { result ≡ both (eqb mark 1) (both (not (unfit o.kind o.length)) (both (ltb o.error 2) (both (eqb spare 0) (ltb o.sofar o.length)))) }
{
    mark == 1
        && !ip_head::unsendable(o.kind, o.length)
        && o.error < 2
        && spare == 0
        && o.sofar < o.length
}

// The open packet that lent memory means: 1, type, error, 0, length (two bytes), how many bytes are there so far (two), and those bytes. Past
// the end of the memory zeros are read. An Err has the numbers too: the promise says what they are, whether a packet is open or not.
pub fn open_in(memory: &[u8]) -> Result<Opened, Opened>
    ensures { told result ≡ opened_in memory.now }
{
    let mark = bits::byte(memory, 0);
    let spare = bits::byte(memory, 3);
    let opened = Opened {
        kind: bits::byte(memory, 1),
        error: bits::byte(memory, 2),
        length: byte_runs::two(bits::byte(memory, 4), bits::byte(memory, 5)),
        sofar: byte_runs::two(bits::byte(memory, 6), bits::byte(memory, 7)),
    };
    if is_open(mark, spare, opened) {
        Ok(opened)
    } else {
        Err(opened)
    }
}

// A word was lost: what was open is dropped, so that nothing is handed out that was not a whole packet. The 4,104 bytes of the open
// packet become zeros; any other length is refused and touches nothing.
pub fn lost(memory: &mut [u8]) -> Result<(), Refusal>
    ensures { Is (dropping memory.old) (status result) memory.new }
{
    if memory.len() != ROOM {
        return Err(Refusal::LengthWrong);
    }
    memory.fill(0);
    Ok(())
}
