// Capital hex digits, two a byte.
ghost use Rattle.std.specs.Prelude.{◌≡◌, ◌*◌, ◌<◌, length};
ghost use Rattle.replay_read.specs.Hex.{hex_digit, hex};

// Capital letters, which the library does not give; the clauses of lines spell it.
fn digit(n: u8) -> u8
    requires { n < 16 }
    ensures { result ≡ hex_digit n }
{
    if n < 10 { b'0' + n } else { b'A' + (n - 10) }
}

pub(crate) fn hex_into(bytes: &[u8], out: &mut [u8])
    requires { length out.old ≡ 2 * length bytes.now }
    ensures { out.new ≡ hex bytes.now }
{
    for (i, byte) in bytes.iter().enumerate() {
        out[2 * i] = digit(*byte >> 4);
        out[2 * i + 1] = digit(*byte & 15);
    }
}
