// The header of a packet in an IP stream, two bytes (clause 4.3.4, table 6): where it fits and how it is announced, which packets have one,
// its error bit, and all of it as it is read.
#![tactic(auto)]

ghost use Rattle.std.specs.Prelude.{◌≡◌, ◌≤◌, ◌<◌, eqb, leb};
ghost use Rattle.ground.specs.Choice.{choose, either};
ghost use Rattle.ip.specs.Packet.{stuffing};
ghost use Rattle.ip.specs.Memory.{unfit};
ghost use Rattle.ip.specs.Write.{announced};
ghost use Rattle.ip_head.specs.Header.{head_in};

pub use ground::LAST_HEADER;
use ground::NO_HEADER;

// Whether a header fits at a place of the payload: it is never split.
pub fn fits(at: usize) -> bool
    ensures { result ≡ leb at 1502 }
{
    at <= LAST_HEADER
}

// First_Header_Address where so many bytes of an open packet come first: FFF where no header fits behind them.
pub fn address_after(rest: usize) -> usize
    ensures { (result ≡ announced rest) × (result < 4096) }
{
    if rest <= LAST_HEADER { rest } else { NO_HEADER }
}

// A packet that is not sent: a type that is not 1 or 2, or a length that is not 1 to 4,095. The two are numbers, as any can stand in a queue and
// in the memory of an open packet; of what a header's two bits and twelve can hold `unfit` asks less.
pub fn unsendable(kind: u8, n: usize) -> bool
    ensures { result ≡ unfit kind n }
{
    !(1..=2).contains(&kind) || !(1..=4095).contains(&n)
}

// IP_Packet_Error of an error byte: 0 for 0, 1 for any other.
pub fn error_bit(error: u8) -> usize
    ensures { (result ≡ choose (eqb error 0) 0 1) × (result < 2) }
{
    usize::from(error != 0)
}

// What the header of a packet says, two bytes (table 6): IP_Packet_Type, IP_Packet_Error and IP_Packet_Length. RFU is not looked at.
// The first two stay numbers: types 0 and 3, which no packet has, can stand there too, and what is handed out has both as bytes.
#[derive(Clone, Copy)]
pub struct Head {
    pub kind: u8,
    pub error: u8,
    pub length: usize,
}

// The header in two bytes.
pub fn head_of(a: u8, b: u8) -> Head
    ensures { (result ≡ head_in a b) × (result.length ≤ 4095) }
{
    let v = byte_runs::two(a, b);
    Head {
        kind: (v / 0x4000) as u8,
        error: (v / 0x2000 % 2) as u8,
        length: v / 2 % 4096,
    }
}

// FF FF in place of a header: all that remains of the payload is padding.
pub fn is_padding(a: u8, b: u8) -> bool
    ensures { result ≡ stuffing a b }
{
    a == 255 && b == 255
}

// No header of a packet: type 0 or 3, or length 0.
pub fn unfit(h: Head) -> bool
    ensures { result ≡ either (eqb h.kind 0) (either (eqb h.kind 3) (eqb h.length 0)) }
{
    h.kind == 0 || h.kind == 3 || h.length == 0
}
