// zap-why, the program for people (02, L1): lists as zap-run does, and says under each instant whose end was declared what the program waits for.
#![tactic(auto)]

use player::play;

fn main(rt: HostRuntime) {
    play(&rt, true);
}
