// The program of the host: a line for each command, the card's answer to it, and at last how it ended.
#![tactic(auto)]

mod input;

use bring_up_line::answer::read;
use codec::front;
use host::{Answer, Host, Started};
use input::Lines;
use replay_write::Kind;
use std::io::Read;

// A frame on its line, written at once, since the card waits for it.
fn send(out: &[u8], n: usize) {
    let mut text = [0u8; 17];
    let line = replay_write::write(Kind::Command, card::answer::Answer::Sent(n), out, &mut text);
    io::write_all(1, front(&text, replay_write::end(0, line, 17)));
}

// A proved loop has to end: no run uses up its turns.
fn bring_up<R: Read>(rt: &impl Print, input: &mut R, begun: Host) -> std::io::Result<()> {
    let mut lines = Lines::new();
    // one byte more than the longest line
    let mut line = [0u8; 1033];
    let mut bytes = [0u8; 514];
    let mut out = [0u8; 17];
    let mut stepped = host_step::step(begun, &[], &mut out);
    let mut turns = u64::MAX;
    while turns > 0 {
        turns -= 1;
        let host = stepped.host;
        let Answer::Sent(n) = stepped.answer else {
            bring_up_end::ended(rt, stepped.answer, host.found, host.polls);
            return Ok(());
        };
        send(&out, n);
        let arrived = lines.line(input, &mut line)?;
        let Some(n) = read(front(&line, arrived), &mut bytes) else {
            bring_up_end::no_answer(rt, host.phase);
            return Ok(());
        };
        stepped = host_step::step(host, front(&bytes, n), &mut out);
    }
    Ok(())
}

// The answers come from a file, one a command; the limit is a text.
pub fn run<R: Read>(rt: &impl Print, input: &mut R, limit: &[u8]) -> std::io::Result<()> {
    let Started { answer, host } = host_step::start(bring_up_line::limit::read(limit));
    if answer.is_err() {
        let _ = println!(rt; "bring_up: the limit is a number from 1 to 1000");
        return Ok(());
    }
    bring_up(rt, input, host)
}
