// A block of 42: 101 for a wrong check; else its operation, or LOCK_UNLOCK_FAILED. The record by value and back; memory is lent.
#![tactic(auto)]

ghost use Rattle.std.specs.Prelude.{◌≡◌, []};
ghost use Rattle.card.specs.Data.{acted, effect_of};
ghost use Rattle.card_call.specs.Seen.{returned};
ghost use Rattle.card_lock_in.specs.Operates.{lock_of, performed, operated, lock_turned};

use card::answer::Answer;
use card::done::Effect;
use card::lock::Operation;
use card::{Card, Core, Password, State};
use card_call::{Stepped, answered, answered_with};
use card_effect::apply;
use card_lock::{operation, relock};
use card_protect::whole;
use card_record::{raise, with_locked, with_marks, with_settings, with_state};
use card_settings::without_temporary;
use card_status::LOCK_UNLOCK_FAILED;

// Whether the card is locked after an operation.
fn lock_of(o: Operation, locked: bool) -> bool
    ensures { result ≡ lock_of o locked }
{
    match o {
        Operation::Lock => true,
        Operation::ForceErase | Operation::Unlock | Operation::ClearPassword => false,
        Operation::SetPassword { lock } => lock,
        Operation::Invalid => locked,
    }
}

fn effect_of(o: Operation) -> Effect
    ensures { result ≡ effect_of o }
{
    match o {
        Operation::ForceErase => Effect::ForceErase,
        _ => Effect::Nothing,
    }
}

// The record after an operation that succeeds: a force erase takes temporary protection too.
fn acted(o: Operation, c: Core) -> Core
    ensures { result ≡ acted o c }
{
    let next = with_locked(c, lock_of(o, c.locked));
    match o {
        Operation::ForceErase => with_settings(next, without_temporary(c.settings)),
        _ => next,
    }
}

// An operation that succeeds, with the password that it leaves.
fn perform(card: Card, o: Operation, password: Password, memory: &mut [u8]) -> Stepped
    ensures { returned result memory.new [] ≡ performed card o password memory.old }
{
    let all = whole(card.core.settings);
    let mut marks = card.core.marks;
    apply(all, effect_of(o), &[], memory, &mut marks);
    let next = with_state(acted(o, card.core), State::Prg);
    answered_with(card, with_marks(next, marks), password, Answer::Accepted)
}

// A payload whose check is right.
fn operate(card: Card, payload: &[u8], memory: &mut [u8]) -> Stepped
    ensures { returned result memory.new [] ≡ operated card payload.now memory.old }
{
    match relock(
        card.core.locked,
        card.core.settings.permanent,
        card.password,
        payload,
    ) {
        Some(password) => perform(card, operation(payload), password, memory),
        None => {
            let failed = with_state(raise(card.core, LOCK_UNLOCK_FAILED), State::Prg);
            answered(card, failed, Answer::Accepted)
        }
    }
}

pub fn lock_into(card: Card, right: bool, payload: &[u8], memory: &mut [u8]) -> Stepped
    ensures { returned result memory.new [] ≡ lock_turned card right payload.now memory.old }
{
    if right {
        operate(card, payload, memory)
    } else {
        answered(card, with_state(card.core, State::Tran), Answer::Rejected)
    }
}
