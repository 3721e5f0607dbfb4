// OCR: the operation conditions register.
ghost use Rattle.std.specs.Prelude.{◌≡◌};
ghost use Rattle.crc.specs.Bits.{bits};
ghost use Rattle.codec.specs.Answer.{encoding};
ghost use Rattle.codec.specs.Layout.{fits, write};
ghost use Rattle.codec.specs.Format.{encode, decode};
ghost use Rattle.reg_scr_ocr.specs.Ocr.{ocr, ocr_values, ocr_read};

use codec::{Refusal, field, join};

#[derive(Clone, Copy, Debug, Default, PartialEq, Eq)]
pub struct Ocr {
    // bit 31: clear while the card is busy powering up
    pub busy: bool,
    // bit 30: high capacity
    pub capacity: bool,
    // bits 23..15: 3.6 V down to 2.7 V
    pub window: u16,
}

// Every field fits its width.
#[tactic(auto, using(crc::proofs::Bits::digit_lt), unfolding(codec::specs::Layout::fits))]
fn fit(c: Ocr) -> bool
    ensures { result ≡ fits ocr.slots (ocr_values c) }
{
    c.window < 512
}

// The slots, high bit first.
fn word(c: Ocr) -> u64
    ensures { bits 32 result ≡ write ocr.slots (ocr_values c) }
{
    let w = join(0, 1, u64::from(c.busy));
    let w = join(w, 1, u64::from(c.capacity));
    let w = join(w, 6, 0);
    let w = join(w, 9, u64::from(c.window));
    join(w, 15, 0)
}

pub fn encode(c: Ocr, out: &mut [u8]) -> Result<usize, Refusal>
    ensures { encoding result out.new ≡ encode ocr (ocr_values c) out.old }
{
    crate::emit(fit(c), word(c), 4, out)
}

#[tactic(auto, unfolding(codec::specs::Format::decode))]
pub fn decode(s: &[u8]) -> Result<Ocr, Refusal>
    ensures { ocr_read result ≡ decode ocr s.now }
{
    let w = crate::read(s, 4)?;
    Ok(Ocr {
        busy: field(w, 31, 1) == 1,
        capacity: field(w, 30, 1) == 1,
        window: field(w, 15, 9) as u16,
    })
}
