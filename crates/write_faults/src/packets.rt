// Transport stream packets (clause 4.3.3): what is refused of their count, and of the null packet.
ghost use Rattle.std.specs.Prelude.{◌≡◌};
ghost use Rattle.ground.specs.Choice.{first_of};
ghost use Rattle.ground.specs.Refusals.{status};
ghost use Rattle.write_faults.specs.Inside.{packet_faults};

use crate::{TS_PACKET, TS_PACKETS};
use ground::refusal::Refusal;

// Whether so many packets and a null packet of this length are taken, or why not.
pub fn refusal(count: u32, null: usize) -> Result<(), Refusal>
    ensures { status result ≡ first_of (packet_faults count null) }
{
    if TS_PACKETS < count {
        return Err(Refusal::CountAbove8);
    }
    if null != TS_PACKET {
        return Err(Refusal::LengthWrong);
    }
    Ok(())
}
