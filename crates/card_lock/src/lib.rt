// The block of 42 beside the password: what it asks for, whether that succeeds, and the password behind it. No core is here.
#![tactic(auto)]

ghost use Rattle.std.specs.Prelude.{◌≡◌};
ghost use Rattle.card.specs.Lock.{operation, succeeds, changed};
ghost use Rattle.card_lock.specs.Relock.{Room, relocked};

mod block;

use block::{byte_at, complete, data};
use card::Password;
use card::lock::Operation;
use card_password::{is_set, matches, no_password, replaces, store};
use codec::behind;

pub fn operation(payload: &[u8]) -> Operation
    ensures { result ≡ operation payload.now }
{
    Operation::from(byte_at(payload, 0))
}

#[tactic(auto, unfolding(card::specs::Lock::succeeds))]
fn succeeds(o: Operation, locked: bool, permanent: bool, password: Password, payload: &[u8]) -> bool
    ensures { result ≡ succeeds o locked permanent password payload.now }
{
    let set = is_set(password);
    let whole = complete(payload);
    let given = data(payload);
    let same = whole & matches(password, given);
    let new = whole & replaces(password, given);
    match o {
        Operation::ForceErase => locked & !permanent,
        Operation::Lock => !locked & (set & same),
        Operation::Unlock => locked & same,
        Operation::ClearPassword => set & same,
        Operation::SetPassword { .. } => new,
        Operation::Invalid => false,
    }
}

// The password behind an operation that succeeds.
#[tactic(auto, unfolding(card::specs::Lock::changed))]
fn changed(o: Operation, password: Password, payload: &[u8]) -> Password
    requires { Room o password payload.now }
    ensures { result ≡ changed o password payload.now }
{
    match o {
        Operation::ForceErase | Operation::ClearPassword => no_password(),
        Operation::Lock | Operation::Unlock | Operation::Invalid => password,
        Operation::SetPassword { .. } => store(behind(data(payload), password.length as usize)),
    }
}

// The password behind the operation, or none where it does not succeed.
pub fn relock(locked: bool, permanent: bool, password: Password, payload: &[u8]) -> Option<Password>
    ensures { result ≡ relocked (operation payload.now) locked permanent password payload.now }
{
    let o = operation(payload);
    if succeeds(o, locked, permanent, password, payload) {
        return Some(changed(o, password, payload));
    }
    None
}
