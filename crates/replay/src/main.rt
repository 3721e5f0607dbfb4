// The replay program: lines on standard input, one answer line each, for 01's card of the bench.
#![tactic(auto)]

fn main(rt: HostRuntime) -> std::io::Result<()> {
    replay_run::run(&mut rt.stdin())
}
