// The sixteen values that the box hands in with an instant, as words.
ghost use Rattle.std.specs.Prelude.{◌+◌, ◌≤◌};
ghost use Rattle.kernel.specs.Passes.{Eight};

// Eight of them, the first in the lowest byte.
pub fn eight_from(values: &[u8; 16], from: usize) -> u64
    requires { from + 8 ≤ 16 }
    ensures { Eight values.now from result }
{
    let mut eight = [0; 8];
    eight.copy_from_slice(&values[from..from + 8]);
    u64::from_le_bytes(eight)
}
