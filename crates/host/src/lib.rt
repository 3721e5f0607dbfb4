// The host that brings a card up (02, order 2): its types, and what a refusal becomes in them. What its calls do with them is in specs/.
#![tactic(auto)]

ghost use Rattle.std.specs.Prelude.{◌≡◌};
ghost use Rattle.host.specs.declared.Reason.TheVariants as Why;
ghost use Rattle.host.specs.Host.{written};

use codec::Refusal;

// The commands of the sequence, by the standard's names, in the order in which they are sent.
#[derive(Clone, Copy, Debug, PartialEq, Eq)]
pub enum Command {
    GoIdleState,
    SendIfCond,
    AppCmd,
    SdSendOpCond,
    AllSendCid,
    SendRelativeAddr,
    SendCsd,
    SelectCard,
}

// Where the host stands: nothing is sent yet; the answer to a command is due; it has ended.
#[derive(Clone, Copy, Debug, PartialEq, Eq)]
pub enum Phase {
    Start,
    Sent(Command),
    Ended,
}

// What the host knows of the card: its address, and CID and CSD as they were received.
#[derive(Clone, Copy, Debug, PartialEq, Eq)]
pub struct Found {
    pub rca: u16,
    pub cid: [u8; 16],
    pub csd: [u8; 16],
}

// What the host keeps between steps, a struct by value.
#[derive(Clone, Copy, Debug, PartialEq, Eq)]
pub struct Host {
    // how many A41 may be sent, and how many were
    pub limit: u16,
    pub polls: u16,
    pub phase: Phase,
    pub found: Found,
}

// Why a reply is not the expected one.
#[derive(Clone, Copy, Debug, PartialEq, Eq)]
pub enum Reason {
    // the decoder's refusal
    Refused(Refusal),
    // something was heard where silence is due
    Heard,
    // an R7 with another voltage or pattern
    Echo,
}

impl From<Refusal> for Reason {
    ghost from_gives = { λ refusal reason. reason ≡ Why.Refused refusal };

    fn from(refusal: Refusal) -> Reason {
        Reason::Refused(refusal)
    }
}

// The answer of a step.
#[derive(Clone, Copy, Debug, PartialEq, Eq)]
pub enum Answer {
    // the next frame: so many bytes of the output buffer
    Sent(usize),
    // the end: the card is selected; a reply was not the expected one; the limit's last poll still shows busy
    Selected,
    Stopped { command: Command, reason: Reason },
    NotReady,
    Refused(Refusal),
}

// An encoder's answer as the host's.
impl From<Result<usize, Refusal>> for Answer {
    ghost from_gives = { λ encoded given. given ≡ written encoded };

    fn from(encoded: Result<usize, Refusal>) -> Answer {
        match encoded {
            Ok(n) => Answer::Sent(n),
            Err(refusal) => Answer::Refused(refusal),
        }
    }
}

#[derive(Clone, Copy, Debug, PartialEq, Eq)]
pub struct Stepped {
    pub answer: Answer,
    pub host: Host,
}

// What a start gives. Where it is refused, every step of the record is refused too: a Result would hand no record back.
#[derive(Clone, Copy, Debug, PartialEq, Eq)]
pub struct Started {
    pub answer: Result<(), Refusal>,
    pub host: Host,
}

// ---- a row of the sequence

// The answer that is expected. An R2 carries one of two registers.
#[derive(Clone, Copy, Debug, PartialEq, Eq)]
pub enum Kind {
    Silence,
    R1,
    R3,
    R6,
    R7,
    Cid,
    Csd,
}

#[derive(Clone, Copy, Debug, PartialEq, Eq)]
pub struct Row {
    pub index: u8,
    pub argument: u32,
    pub answer: Kind,
    // what follows the expected answer; after the last command the card is selected
    pub next: Option<Command>,
}

// ---- a reply

// What an accepted reply says of the sequence.
#[derive(Clone, Copy, Debug, PartialEq, Eq)]
pub enum Judgement {
    Expected,
    // an R3 with bit 31 clear
    Busy,
}

// The judgement of a reply, and what is known of the card then.
#[derive(Clone, Copy, Debug, PartialEq, Eq)]
pub struct Heard {
    pub judgement: Judgement,
    pub found: Found,
}
