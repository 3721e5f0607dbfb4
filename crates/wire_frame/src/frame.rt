// The 48-bit frames of commands and responses: a first byte, 32 bits of content and a last byte.
ghost use Rattle.std.specs.Prelude.{◌≡◌};
ghost use Rattle.crc.specs.Bits.{bits, bits_of};
ghost use Rattle.codec.specs.Answer.{encoding};
ghost use Rattle.wire_frame.specs.Frame.{closing, encode_frame, read_frame, frame_read};

use codec::Refusal;

// The last byte behind five: CRC7 and end bit, or eight ones.
fn last(checked: bool, head: &[u8]) -> u8
    ensures { bits 8 result ≡ closing checked (bits_of head.now) }
{
    if checked {
        return codec::seal(head);
    }
    0xFF
}

// Rows 4 and 8, or the six bytes.
#[tactic(auto, unfolding(crate::specs::Frame::encode_frame))]
pub fn encode(
    fits: bool,
    checked: bool,
    first: u8,
    content: u32,
    out: &mut [u8],
) -> Result<usize, Refusal>
    ensures { encoding result out.new ≡ encode_frame fits checked first content out.old }
{
    codec::writable(fits, out.len())?;
    out[0] = first;
    codec::put32(&mut out[1..5], content);
    out[5] = last(checked, &out[0..5]);
    Ok(6)
}

// Rows 1 and 7, or the content of a response with this index.
pub fn read(checked: bool, index: u8, s: &[u8]) -> Result<u32, Refusal>
    ensures { frame_read result ≡ read_frame checked index s.now }
{
    if s.len() != 6 {
        return Err(Refusal::Size);
    }
    if index >= 64 || s[0] != index {
        return Err(Refusal::Wrong);
    }
    if s[5] != last(checked, &s[0..5]) {
        return Err(Refusal::Wrong);
    }
    Ok(codec::word32(&s[1..5]))
}
