// The console: lines on standard input, one answer line each, for any card.
#![tactic(auto)]

fn main(rt: HostRuntime) -> std::io::Result<()> {
    console_run::run(&mut rt.stdin())
}
