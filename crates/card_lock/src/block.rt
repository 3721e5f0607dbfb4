// The fields of a block of 42. A block that is too short for them has what there is.
ghost use Rattle.std.specs.Prelude.{◌≡◌, get_or};
ghost use Rattle.card.specs.Lock.{password_data, complete};

use codec::{behind, front};

// 0 behind the end.
pub(crate) fn byte_at(s: &[u8], i: usize) -> u8
    ensures { result ≡ get_or s.now i 0 }
{
    s.get(i).copied().unwrap_or(0)
}

// As many bytes as PWDS_LEN says, behind it.
pub(crate) fn data(payload: &[u8]) -> &[u8]
    ensures { result.now ≡ password_data payload.now }
{
    front(behind(payload, 2), byte_at(payload, 1) as usize)
}

pub(crate) fn complete(payload: &[u8]) -> bool
    ensures { result ≡ complete payload.now }
{
    2 + byte_at(payload, 1) as usize <= payload.len()
}
