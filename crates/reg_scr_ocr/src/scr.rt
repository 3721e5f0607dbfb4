// SCR: the SD configuration register.
ghost use Rattle.std.specs.Prelude.{◌≡◌};
ghost use Rattle.crc.specs.Bits.{bits};
ghost use Rattle.codec.specs.Answer.{encoding};
ghost use Rattle.codec.specs.Layout.{fits, write};
ghost use Rattle.codec.specs.Format.{encode, decode};
ghost use Rattle.reg_scr_ocr.specs.Scr.{scr, scr_values, scr_read};

use codec::{Refusal, field, join};

#[derive(Clone, Copy, Debug, Default, PartialEq, Eq)]
pub struct Scr {
    pub scr_structure: u8,
    pub sd_spec: u8,
    pub data_stat_after_erase: bool,
    pub sd_security: u8,
    pub sd_bus_widths: u8,
}

// Every field fits its width.
#[tactic(auto, using(crc::proofs::Bits::digit_lt), unfolding(codec::specs::Layout::fits))]
fn fit(c: Scr) -> bool
    ensures { result ≡ fits scr.slots (scr_values c) }
{
    c.scr_structure < 16 && c.sd_spec < 16 && c.sd_security < 8 && c.sd_bus_widths < 16
}

// The slots, high bit first.
fn word(c: Scr) -> u64
    ensures { bits 64 result ≡ write scr.slots (scr_values c) }
{
    let w = join(0, 4, u64::from(c.scr_structure));
    let w = join(w, 4, u64::from(c.sd_spec));
    let w = join(w, 1, u64::from(c.data_stat_after_erase));
    let w = join(w, 3, u64::from(c.sd_security));
    let w = join(w, 4, u64::from(c.sd_bus_widths));
    join(w, 48, 0)
}

pub fn encode(c: Scr, out: &mut [u8]) -> Result<usize, Refusal>
    ensures { encoding result out.new ≡ encode scr (scr_values c) out.old }
{
    crate::emit(fit(c), word(c), 8, out)
}

#[tactic(auto, unfolding(codec::specs::Format::decode))]
pub fn decode(s: &[u8]) -> Result<Scr, Refusal>
    ensures { scr_read result ≡ decode scr s.now }
{
    let w = crate::read(s, 8)?;
    Ok(Scr {
        scr_structure: field(w, 60, 4) as u8,
        sd_spec: field(w, 56, 4) as u8,
        data_stat_after_erase: field(w, 55, 1) == 1,
        sd_security: field(w, 52, 3) as u8,
        sd_bus_widths: field(w, 48, 4) as u8,
    })
}
