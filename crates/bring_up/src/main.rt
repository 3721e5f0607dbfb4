// Brings a card up: commands on standard output, the card's answers on standard input. The argument is the limit of polls.
#![tactic(auto)]

use std::env::{Env, FillError};

fn main(rt: HostRuntime) -> std::io::Result<()> {
    let mut text = io::buffer();
    let input = &mut rt.stdin();
    // the first argument, and whether there is a second
    match (rt.arg(1, &mut text), rt.arg(2, &mut [])) {
        (Err(FillError::NotPresent), _) => bring_up_run::run(&rt, input, b"1000"),
        (Ok(n), Err(FillError::NotPresent)) => bring_up_run::run(&rt, input, &text[..n]),
        _ => bring_up_run::run(&rt, input, b""),
    }
}
