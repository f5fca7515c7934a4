// What stays of a block of input.
ghost use Rattle.std.specs.Prelude.{◌≡◌, ◌++◌, ◌+◌, ◌-◌, ◌<◌, ◌≤◌, min, length, take, drop};

// Moves the unfinished line from `from` to `to` to the start of the block and answers its length.
// Of one above the longest that can be good a byte more than that is kept, which is as bad a line as the whole.
pub fn keep_rest(block: &mut [u8], from: usize, to: usize, longest: usize) -> usize
    requires { (from ≤ to) × (to ≤ length block.old) × (longest < length block.old) }
    ensures value { result ≡ min (to - from) (longest + 1) }
    ensures block_after { block.new ≡ take result (drop from block.old) ++ drop result block.old }
{
    let n = (to - from).min(longest + 1);
    block.copy_within(from..from + n, 0);
    n
}
