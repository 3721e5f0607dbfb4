// The registers without a check: SCR and OCR, each one word.
#![tactic(auto)]

ghost use Rattle.std.specs.Prelude.{◌≡◌, ◌≤◌, cond, eqb, length, ◌%◌, ◌^◌};
ghost use Rattle.crc.specs.Bits.{number, bits_of};
ghost use Rattle.codec.specs.Answer.{encoding};
ghost use Rattle.reg_scr_ocr.specs.Bare.{emitted};

use codec::Refusal;

pub mod ocr;
pub mod scr;

// Rows 4 and 8, or the last `size` bytes of a word.
#[tactic(auto, unfolding(crate::specs::Bare::emitted))]
pub(crate) fn emit(fits: bool, word: u64, size: usize, out: &mut [u8]) -> Result<usize, Refusal>
    requires { size ≤ 8 }
    ensures { encoding result out.new ≡ emitted fits word size out.old }
{
    codec::writable(fits, out.len())?;
    codec::put(&mut out[..size], word);
    Ok(size)
}

// Row 1, or the word of `size` bytes.
pub(crate) fn read(s: &[u8], size: usize) -> Result<u64, Refusal>
    ensures { result ≡ cond (eqb (length s.now) size) (Ok (number (bits_of s.now) % 2 ^ 64)) (Err Refusal.Size) }
{
    if s.len() != size {
        return Err(Refusal::Size);
    }
    Ok(codec::word(s))
}
