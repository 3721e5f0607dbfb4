// Capital hex digits, two a byte.
ghost use Rattle.std.specs.Prelude.{◌≡◌, true, cond, ◌*◌, ◌<◌, ltb, length};
ghost use Rattle.replay_read.specs.Hex.{hex_value, all_hex, unhex, fills};

fn is_digit(c: u8) -> bool
    ensures { result ≡ ltb (hex_value c) 16 }
{
    matches!(c, b'0'..=b'9' | b'A'..=b'F')
}

fn value(c: u8) -> u8
    requires { hex_value c < 16 }
    ensures { result ≡ hex_value c }
{
    if c <= b'9' { c - b'0' } else { c - b'A' + 10 }
}

// It looks at all of them, many at once: with `all`, which stops at the first that is none, a line of a block takes half as long again.
fn all_hex(digits: &[u8]) -> bool
    ensures { result ≡ all_hex digits.now }
{
    let mut right = true;
    for digit in digits {
        right = right & is_digit(*digit);
    }
    right
}

// The bytes of digits.
fn unhex_into(digits: &[u8], out: &mut [u8])
    requires sizes { length digits.now ≡ 2 * length out.old }
    requires right { all_hex digits.now ≡ true }
    ensures { out.new ≡ unhex digits.now }
{
    for (i, [high, low]) in digits.as_chunks::<2>().0.iter().enumerate() {
        out[i] = (value(*high) << 4) | value(*low);
    }
}

// Whether the digits are those of just so many bytes; where they are not, `out` stays as it was. A Result of nothing would say no more.
pub fn unhex(digits: &[u8], out: &mut [u8]) -> bool
    ensures { (result ≡ fills digits.now out.old)
        × (out.new ≡ cond result (unhex digits.now) out.old) }
{
    // no product of lengths is made before it is known to fit
    if digits.len() / 2 != out.len() || digits.len() % 2 != 0 || !all_hex(digits) {
        return false;
    }
    unhex_into(digits, out);
    true
}
