// The host's decoder of responses, a function for each kind. That of R1 is told the index.
#![tactic(auto)]

ghost use Rattle.std.specs.Prelude.{◌≡◌};
ghost use Rattle.codec.specs.Answer.{part_read};
ghost use Rattle.codec.specs.Format.{decode};
ghost use Rattle.wire_response.specs.Response.{r1, decode_r2, r3, r6, r7};
ghost use Rattle.wire_response_decode.specs.Reply.{r1_read, r3_read, r6_read, r7_read};

use codec::Refusal;

// What an R6 carries.
#[derive(Clone, Copy, Debug, PartialEq, Eq)]
pub struct Published {
    pub rca: u16,
    pub status: u16,
}

// What an R7 carries.
#[derive(Clone, Copy, Debug, PartialEq, Eq)]
pub struct Echo {
    pub voltage: u8,
    pub pattern: u8,
}

// The status.

pub fn decode_r1(index: u8, s: &[u8]) -> Result<u32, Refusal>
    ensures { r1_read result ≡ decode (r1 index) s.now }
{
    wire_frame::frame::read(true, index, s)
}

// The register where it lies, its own check among its bytes.
pub fn decode_r2(s: &[u8]) -> Result<&[u8], Refusal>
    ensures { part_read result ≡ decode_r2 s.now }
{
    if s.len() != 17 {
        return Err(Refusal::Size);
    }
    if s[0] != 0x3F {
        return Err(Refusal::Wrong);
    }
    if s[16] != codec::seal(&s[1..16]) {
        return Err(Refusal::Wrong);
    }
    Ok(&s[1..17])
}

// The OCR.
pub fn decode_r3(s: &[u8]) -> Result<u32, Refusal>
    ensures { r3_read result ≡ decode r3 s.now }
{
    wire_frame::frame::read(false, 0x3F, s)
}

pub fn decode_r6(s: &[u8]) -> Result<Published, Refusal>
    ensures { r6_read result ≡ decode r6 s.now }
{
    let content = wire_frame::frame::read(true, 3, s)?;
    Ok(Published {
        rca: (content >> 16) as u16,
        status: (content & 0xFFFF) as u16,
    })
}

pub fn decode_r7(s: &[u8]) -> Result<Echo, Refusal>
    ensures { r7_read result ≡ decode r7 s.now }
{
    let content = wire_frame::frame::read(true, 8, s)?;
    Ok(Echo {
        voltage: ((content >> 8) & 0xF) as u8,
        pattern: (content & 0xFF) as u8,
    })
}
