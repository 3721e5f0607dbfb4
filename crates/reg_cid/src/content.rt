// What CID and CSD share: sixteen bytes, which are two words of content and a byte of check and end bit. A trait of both would be
// no plainer: `encode`, `sixteen` and `decode` of each are a call or two of these.
ghost use Rattle.std.specs.Prelude.{◌≡◌, ◌%◌, ◌^◌, take, drop};
ghost use Rattle.crc.specs.Bits.{bits_of, number};
ghost use Rattle.codec.specs.Answer.{encoding, row_in, nonzero};
ghost use Rattle.reg_cid.specs.Content.{sixteen, emitted, verdict};

use codec::Refusal;

// 64 and 56 bits of content.
#[derive(Clone, Copy, Debug, PartialEq, Eq)]
pub struct Words {
    pub first: u64,
    pub rest: u64,
}

impl Words {
    // Of a register's bytes; the check behind them is not looked at.
    pub fn from_bytes(s: &[u8]) -> Words
        ensures first { result.first ≡ number (bits_of (take 8 s.now)) % 2 ^ 64 }
        ensures rest { result.rest ≡ number (bits_of (take 7 (drop 8 s.now))) % 2 ^ 64 }
    {
        Words {
            first: codec::word(codec::front(s, 8)),
            rest: codec::word(codec::front(codec::behind(s, 8), 7)),
        }
    }
}

// A register's sixteen bytes.
pub fn sixteen(w: Words) -> [u8; 16]
    ensures { result ≡ sixteen w.first w.rest }
{
    let mut s: [u8; 16] = [0; 16];
    codec::put(&mut s[0..8], w.first);
    codec::put(&mut s[8..15], w.rest);
    s[15] = codec::seal(&s[0..15]);
    s
}

// Rows 4 and 8, or the bytes of a register.
#[tactic(auto, unfolding(crate::specs::Content::emitted))]
pub fn emit(fits: bool, w: Words, out: &mut [u8]) -> Result<usize, Refusal>
    ensures { encoding result out.new ≡ emitted fits w.first w.rest out.old }
{
    codec::writable(fits, out.len())?;
    out[..16].copy_from_slice(&sixteen(w));
    Ok(16)
}

// Rows 1 and 7, where size, check or end bit are wrong.
pub fn judge(s: &[u8]) -> Result<(), Refusal>
    ensures { row_in result ≡ nonzero (verdict s.now) }
{
    if s.len() != 16 {
        return Err(Refusal::Size);
    }
    if s[15] != codec::seal(&s[0..15]) {
        return Err(Refusal::Wrong);
    }
    Ok(())
}
