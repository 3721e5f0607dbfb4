// Responses of the card: the encoders, one for each kind.
#![tactic(auto)]

pub mod status;

ghost use Rattle.std.specs.Prelude.{◌≡◌, [], ◌∷◌};
ghost use Rattle.codec.specs.Answer.{encoding};
ghost use Rattle.codec.specs.Format.{encode};
ghost use Rattle.wire_response.specs.Response.{r1, encode_r2, r3, r6, r7};

use codec::Refusal;

pub fn encode_r1(index: u8, status: u32, out: &mut [u8]) -> Result<usize, Refusal>
    ensures { encoding result out.new ≡ encode (r1 index) (status ∷ []) out.old }
{
    wire_frame::frame::encode(index < 64, true, index, status, out)
}

// 3Fh, then the 16 bytes of a register as they are, its own check among them. No field can be too wide, which `writable` asks too.
#[tactic(auto, unfolding(crate::specs::Response::encode_r2))]
pub fn encode_r2(register: &[u8], out: &mut [u8]) -> Result<usize, Refusal>
    ensures { encoding result out.new ≡ encode_r2 register.now out.old }
{
    if register.len() != 16 {
        return Err(Refusal::Size);
    }
    if out.len() < 17 {
        return Err(Refusal::Buffer);
    }
    out[0] = 0x3F;
    out[1..17].copy_from_slice(register);
    Ok(17)
}

pub fn encode_r3(ocr: u32, out: &mut [u8]) -> Result<usize, Refusal>
    ensures { encoding result out.new ≡ encode r3 (ocr ∷ []) out.old }
{
    wire_frame::frame::encode(true, false, 0x3F, ocr, out)
}

pub fn encode_r6(rca: u16, status: u16, out: &mut [u8]) -> Result<usize, Refusal>
    ensures { encoding result out.new ≡ encode r6 (rca ∷ status ∷ []) out.old }
{
    wire_frame::frame::encode(
        true,
        true,
        3,
        (u32::from(rca) << 16) | u32::from(status),
        out,
    )
}

pub fn encode_r7(voltage: u8, pattern: u8, out: &mut [u8]) -> Result<usize, Refusal>
    ensures { encoding result out.new ≡ encode r7 (voltage ∷ pattern ∷ []) out.old }
{
    wire_frame::frame::encode(
        voltage < 16,
        true,
        8,
        (u32::from(voltage) << 8) | u32::from(pattern),
        out,
    )
}
