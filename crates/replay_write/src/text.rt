// Lines of output, with their newline.
ghost use Rattle.std.specs.Prelude.{◌≡◌, [], ◌∷◌, ◌++◌};
ghost use Rattle.codec.specs.Answer.{encoding, row_of};
ghost use Rattle.replay_read.specs.Hex.{hex};
ghost use Rattle.replay_write.specs.Write.{word, refusal, fitted};

use crate::Kind;
use crate::hex::hex_into;
use codec::Refusal;

// The whole line, or nothing.
pub(crate) fn put(line: &[u8], text: &mut [u8]) -> Result<usize, Refusal>
    ensures { encoding result text.new ≡ fitted line.now text.old }
{
    if text.len() < line.len() {
        return Err(Refusal::Buffer);
    }
    text[..line.len()].copy_from_slice(line);
    Ok(line.len())
}

// A refusal may have any number, so it has up to three digits.
pub(crate) fn refusal(why: Refusal, text: &mut [u8]) -> Result<usize, Refusal>
    ensures { encoding result text.new ≡ fitted (refusal (row_of why)) text.old }
{
    let number = u8::from(why);
    let ones = b'0' + number % 10;
    if number < 10 {
        return put(&[b'r', b'e', b'f', b'\t', ones, b'\n'], text);
    }
    let tens = b'0' + number / 10 % 10;
    if number < 100 {
        return put(&[b'r', b'e', b'f', b'\t', tens, ones, b'\n'], text);
    }
    let hundreds = b'0' + number / 100;
    put(
        &[b'r', b'e', b'f', b'\t', hundreds, tens, ones, b'\n'],
        text,
    )
}

fn tag(kind: Kind) -> [u8; 4]
    ensures { result ≡ word kind }
{
    match kind {
        Kind::Command => *b"cmd\t",
        Kind::Response => *b"rsp\t",
        Kind::Block => *b"blk\t",
        Kind::Memory => *b"mem\t",
    }
}

// A word and bytes, in hex.
pub(crate) fn bytes_line(kind: Kind, bytes: &[u8], text: &mut [u8]) -> Result<usize, Refusal>
    ensures { encoding result text.new ≡ fitted (word kind ++ (hex bytes.now ++ (10 ∷ []))) text.old }
{
    if text.len() < 5 {
        return Err(Refusal::Buffer);
    }
    // no sum of lengths is made before it is known to fit
    if (text.len() - 5) / 2 < bytes.len() {
        return Err(Refusal::Buffer);
    }
    let end = 4 + 2 * bytes.len();
    codec::copy(text, &tag(kind));
    text[end] = b'\n';
    hex_into(bytes, &mut text[4..end]);
    Ok(end + 1)
}
