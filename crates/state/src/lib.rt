// A state's bytes (01, "State"): made fresh, and judged whether they are at rest.
#![tactic(auto)]

ghost use Rattle.std.specs.Prelude.{◌≡◌, length, replicate};

pub mod resting;

// A subtree's bytes become fresh.
pub fn clear(part: &mut [u8])
    ensures { part.new ≡ replicate (length part.old) 0 }
{
    part.fill(0);
}
