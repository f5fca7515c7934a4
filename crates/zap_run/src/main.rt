// zap-run, the listing program (01, "The listing program").
#![tactic(auto)]

use player::play;

fn main(rt: HostRuntime) {
    play(&rt, false);
}
