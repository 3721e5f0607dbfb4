// The last line of the host's program: how it ended.
#![tactic(auto)]

pub mod blocks;

use blocks::blocks;
use host::{Answer, Command, Found, Phase, Reason};
use host_sequence::row;
use std::fmt::{self, Display, Formatter, Write};

// The step at which it stopped, by its command.
#[derive(Clone, Copy, Debug, PartialEq, Eq)]
struct Step(Command);

impl Display for Step {
    fn fmt<W: Write>(&self, f: &mut Formatter<W>) -> fmt::Result {
        if self.0 == Command::SdSendOpCond {
            f.write_str("A")?;
        }
        row(self.0, 0).index.fmt(f)
    }
}

#[derive(Clone, Copy, Debug, PartialEq, Eq)]
struct Why(Reason);

impl Display for Why {
    fn fmt<W: Write>(&self, f: &mut Formatter<W>) -> fmt::Result {
        match self.0 {
            Reason::Refused(refusal) => u8::from(refusal).fmt(f),
            Reason::Heard => f.write_str("heard"),
            Reason::Echo => f.write_str("echo"),
        }
    }
}

// The register was accepted with its check, so it is decoded.
fn block_count(csd: [u8; 16]) -> u32 {
    reg_csd_decode::decode(&csd).map_or(0, |fields| blocks(fields.c_size, fields.c_size_mult))
}

// The line of an answer that is no frame. No step is refused here: the limit was accepted, and the buffer has room. What cannot
// be written stops no bring-up.
pub fn ended(rt: &impl Print, answer: Answer, found: Found, polls: u16) {
    let _ = match answer {
        Answer::Selected => {
            println!(rt;
                "selected\t{:04X}\t{polls}\t{}",
                found.rca,
                block_count(found.csd)
            )
        }
        Answer::Stopped { command, reason } => {
            println!(rt; "stopped\t{}\t{}", Step(command), Why(reason))
        }
        Answer::NotReady => println!(rt; "busy\t{polls}"),
        Answer::Sent(_) | Answer::Refused(_) => Ok(()),
    };
}

// The card's line is no answer to the command that was sent, or the input has ended.
pub fn no_answer(rt: &impl Print, phase: Phase) {
    if let Phase::Sent(command) = phase {
        let _ = println!(rt; "stopped\t{}\tline", Step(command));
    }
}
