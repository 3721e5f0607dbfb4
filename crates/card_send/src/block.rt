// A packet straight into the buffer, in SPI mode behind its start token.
ghost use Rattle.std.specs.Prelude.{◌≡◌, true};
ghost use Rattle.codec.specs.Answer.{encoding};
ghost use Rattle.card_send.specs.Sending.{encode_block};

use card_token::START_BLOCK;
use codec::Refusal;

// The token is written last: a refusal leaves the buffer.
fn encode_led(payload: &[u8], out: &mut [u8]) -> Result<usize, Refusal>
    ensures { encoding result out.new ≡ encode_block true payload.now out.old }
{
    if out.is_empty() {
        return wire_packet::encode(payload, out);
    }
    let n = wire_packet::encode(payload, &mut out[1..])?;
    out[0] = START_BLOCK;
    Ok(n + 1)
}

pub(crate) fn encode_block(spi: bool, payload: &[u8], out: &mut [u8]) -> Result<usize, Refusal>
    ensures { encoding result out.new ≡ encode_block spi payload.now out.old }
{
    if spi {
        return encode_led(payload, out);
    }
    wire_packet::encode(payload, out)
}
