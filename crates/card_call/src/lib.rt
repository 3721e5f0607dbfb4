// What a call returns: its answer and the record.
#![tactic(auto)]

ghost use Rattle.std.specs.Prelude.{◌≡◌};

use card::answer::Answer;
use card::{Card, Core, Password};
use codec::Refusal;

#[derive(Clone, Copy)]
pub struct Stepped {
    pub answer: Answer,
    pub card: Card,
}

// The refusal alone; the record stays.
pub fn refused(card: Card, refusal: Refusal) -> Stepped
    ensures { result ≡ record { answer = Answer.Refused refusal; card = card } }
{
    Stepped {
        answer: Answer::Refused(refusal),
        card,
    }
}

// The answer, the new record and the password that the call leaves; what the line knows stays.
pub fn answered_with(card: Card, core: Core, password: Password, answer: Answer) -> Stepped
    ensures { result ≡ record { answer = answer; card = record { core = core; password = password; line = card.line } } }
{
    Stepped {
        answer,
        card: Card {
            core,
            password,
            ..card
        },
    }
}

// Of a call that leaves the password too.
pub fn answered(card: Card, core: Core, answer: Answer) -> Stepped
    ensures { result ≡ record { answer = answer; card = record { core = core; password = card.password; line = card.line } } }
{
    answered_with(card, core, card.password, answer)
}
