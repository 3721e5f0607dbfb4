// Replays the stored transcripts one after the other, each on a card of its own, as the replay program does.
#![tactic(auto)]

use replay_session::Bench;

fn main(rt: HostRuntime) -> std::io::Result<()> {
    let names = [
        "nine.in",
        "bring-up.in",
        "all-states.in",
        "status-bits.in",
        "holds.in",
        "refusals.in",
        "long-lines.in",
        "erase.in",
        "multiple.in",
        "lock.in",
        "damaged.in",
        "damaged-without.in",
    ];
    replay_run::stored(&rt, &names, &Bench)
}
