// What a call answers, and what it is handed.
ghost use Rattle.std.specs.Prelude.{◌≡◌};
ghost use Rattle.codec.specs.Answer.{encoded};
ghost use Rattle.card.specs.Step.{answer};
ghost use Rattle.card.specs.Replied.{replied};

use codec::Refusal;

// The answer of a call.
#[derive(Clone, Copy)]
pub enum Answer {
    // nothing is sent
    Silence,
    // so many bytes of the output buffer
    Sent(usize),
    // the data answers 010 and 101
    Accepted,
    Rejected,
    // powered up, or busy over
    Over,
    Refused(Refusal),
}

// What an encoder answered: the bytes were sent, or its refusal.
impl From<Result<usize, Refusal>> for Answer {
    ghost from_gives = { λ written given. answer given ≡ replied (encoded written) };

    fn from(written: Result<usize, Refusal>) -> Answer {
        match written {
            Ok(n) => Answer::Sent(n),
            Err(refusal) => Answer::Refused(refusal),
        }
    }
}

// What was handed in, held against the rows of 01's table of refused calls: which of them apply.
#[derive(Clone, Copy, Default)]
pub struct Rows {
    // 1: a size
    pub size: bool,
    // 2: the record
    pub unsound: bool,
    // 3: memory
    pub memory: bool,
    // 4: the output buffer
    pub buffer: bool,
    // 5: no transfer is open for the call, or nothing is busy
    pub closed: bool,
    // 6: a setting
    pub settings: bool,
}
