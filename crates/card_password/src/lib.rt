// The password: as it is stored, and held against data.
#![tactic(auto)]

ghost use Rattle.std.specs.Prelude.{◌≡◌, take};
ghost use Rattle.card.specs.Settings as Sizes;
ghost use Rattle.card.specs.Soundness.{equal};
ghost use Rattle.card.specs.Lock.{password_of, no_password, content, is_set, begins, matches, replaces};

use card::Password;
use codec::front;

// The most bytes of a password.
const PASSWORD: usize = 16;

pub fn no_password() -> Password
    ensures { result ≡ no_password }
{
    Password {
        bytes: [0u8; 16],
        length: 0,
    }
}

pub fn is_set(password: Password) -> bool
    ensures { result ≡ is_set password }
{
    password.length >= 1
}

// The bytes in front of zeros; of more than 16 the first.
pub fn store(s: &[u8]) -> Password
    ensures { result ≡ password_of (take Sizes.PASSWORD s.now) }
{
    let first = front(s, PASSWORD);
    let mut bytes = [0u8; 16];
    codec::copy(&mut bytes, first);
    Password {
        bytes,
        length: first.len() as u8,
    }
}

// As it is stored: bytes behind its length are zero.
pub fn kept(password: Password) -> Password
    ensures { result ≡ password_of (content password) }
{
    store(front(&password.bytes, password.length as usize))
}

// All bytes are looked at, so that the time does not tell how many are right; `==` may stop at the first that is wrong.
fn same(a: &[u8], b: &[u8]) -> bool
    ensures { result ≡ equal a.now b.now }
{
    if a.len() != b.len() {
        return false;
    }
    let mut right = true;
    for (x, y) in a.iter().zip(b) {
        right = right & (x == y);
    }
    right
}

// The data starts with the password.
fn begins(password: Password, given: &[u8]) -> bool
    ensures { result ≡ begins password given.now }
{
    let n = password.length as usize;
    same(front(given, n), front(&password.bytes, n))
}

// The password and nothing behind it.
#[tactic(auto, unfolding(card::specs::Lock::matches))]
pub fn matches(password: Password, given: &[u8]) -> bool
    ensures { result ≡ matches password given.now }
{
    begins(password, given) & (given.len() == password.length as usize)
}

// The password, and behind it a new one.
#[tactic(auto, unfolding(card::specs::Lock::replaces))]
pub fn replaces(password: Password, given: &[u8]) -> bool
    ensures { result ≡ replaces password given.now }
{
    let n = password.length as usize;
    begins(password, given) & ((n + 1 <= given.len()) & (given.len() <= n + PASSWORD))
}
