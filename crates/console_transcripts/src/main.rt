// Plays the stored transcripts of the console one after the other, each from its beginning, as the console does.
#![tactic(auto)]

use console_run::Console;

fn main(rt: HostRuntime) -> std::io::Result<()> {
    let names = [
        "power.in",
        "protected.in",
        "lock.in",
        "locked.in",
        "spi.in",
        "spi-blocks.in",
        "spi-memory.in",
        "memory.in",
        "sizes.in",
        "lines.in",
    ];
    replay_run::stored(&rt, &names, &Console)
}
