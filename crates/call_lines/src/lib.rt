// The lines of the calls program that run an instant or take a piece. Each function puts an answer line at the start of the output and answers its length.
#![tactic(auto)]

ghost use Rattle.std.specs.Prelude.{◌≤◌, length};
ghost use Rattle.call_lines.specs.Rooms.{AnswerRoom};

pub mod instant;
pub mod take;

// The answer to a line that is no call.
pub fn bad_line(output: &mut [u8]) -> usize
    requires { AnswerRoom output.old }
    ensures { result ≤ length output.old }
{
    octets::copy(b"bad-line\n", output)
}
