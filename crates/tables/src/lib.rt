// The tables of a pattern: what is sent of six bit periods, by the six bits of each encoder and by the registers.
#![tactic(auto)]

mod look;
mod weights;

ghost use Rattle.std.specs.Prelude.{◌≡◌};
ghost use Rattle.tables.specs.Plan.{plan_of};

pub use look::HALF;

// A pattern's tables, and how many bits it sends of the six groups of each half.
// The half h has its tables from 192 h on: 64 entries by the registers, 64 by the six bits of encoder 2, 64 by those of encoder 1.
// The halves are no two structs in an array: `plan_of` (specs/Plan.antt) numbers the entries of both as one list, with the two counts beside it.
#[derive(Clone, Copy)]
pub struct Plan {
    pub look: [u64; 384],
    pub k0: usize,
    pub k1: usize,
}

impl Plan {
    // Before the tables are made: a constant, since an array that a function hands up stands on the stack twice.
    pub const EMPTY: Plan = Plan {
        look: [0; 384],
        k0: 0,
        k1: 0,
    };
}

// The tables by a pattern's groups into the lent ones, whatever they held. Of the groups the first twelve are read: a symbol of the data is sent once or not at all.
pub fn plan_into(rows: &[u16; 18], plan: &mut Plan)
    ensures { plan.new ≡ plan_of rows.now }
{
    let alone = constituent::impulses();
    plan.k0 = look::half_of(&mut plan.look[..HALF], rows, 0, &alone);
    if rows[6..12] == rows[..6] {
        look::copy_half(&mut plan.look);
        plan.k1 = plan.k0;
    } else {
        plan.k1 = look::half_of(&mut plan.look[HALF..], rows, 1, &alone);
    }
}

// The tables by a pattern's groups, of which the first twelve are read: a symbol of the data is sent once or not at all.
// It stands beside `plan_into`, which it calls: it is public, and `plan_of_agrees` is a theorem of it.
pub fn plan_of(rows: &[u16; 18]) -> Plan
    ensures { result ≡ plan_of rows.now }
{
    let mut plan = Plan::EMPTY;
    plan_into(rows, &mut plan);
    plan
}
