// The low bits of the counter, reversed (clause 4.4.4).
#![tactic(auto)]

ghost use Rattle.std.specs.Prelude.{◌≡◌};
ghost use Rattle.order.specs.Order.{reversed};

// Five bits, reversed (clause 4.4.4), by one formula and no method, as request 2026-03 has it: bit k, which is v / 2^k less twice v / 2^(k + 1), goes to the place 4 - k.
pub fn reversed(x: usize) -> usize
    ensures { result ≡ reversed x }
{
    let v = x % 32;
    16 * v - 24 * (v / 2) - 12 * (v / 4) - 6 * (v / 8) - 3 * (v / 16)
}
