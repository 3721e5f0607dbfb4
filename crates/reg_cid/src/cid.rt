// CID: the card identification register.
ghost use Rattle.std.specs.Prelude.{◌≡◌};
ghost use Rattle.codec.specs.Answer.{encoding};
ghost use Rattle.codec.specs.Layout.{fits, write, read};
ghost use Rattle.codec.specs.Format.{image, encode, decode};
ghost use Rattle.reg_cid.specs.Content.{content};
ghost use Rattle.reg_cid.specs.Cid.{cid, cid_values, cid_read};

use crate::content::{self, Words};
use codec::{Refusal, field, join};

#[derive(Clone, Copy, Debug, Default, PartialEq, Eq)]
pub struct Cid {
    pub mid: u8,
    pub oid: u16,
    pub pnm: u64,
    pub prv: u8,
    pub psn: u32,
    pub mdt: u16,
}

// Every field fits its width.
#[tactic(auto, unfolding(codec::specs::Layout::fits))]
pub fn fit(c: Cid) -> bool
    ensures { result ≡ fits cid.slots (cid_values c) }
{
    c.pnm < 0x100_0000_0000 && c.mdt < 0x1000
}

// The content, high bit first.
fn words(c: Cid) -> Words
    ensures { content result.first result.rest ≡ write cid.slots (cid_values c) }
{
    let a = join(0, 8, u64::from(c.mid));
    let a = join(a, 16, u64::from(c.oid));
    let a = join(a, 40, c.pnm);
    let b = join(0, 8, u64::from(c.prv));
    let b = join(b, 32, u64::from(c.psn));
    let b = join(b, 4, 0);
    let b = join(b, 12, u64::from(c.mdt));
    Words { first: a, rest: b }
}

pub fn encode(c: Cid, out: &mut [u8]) -> Result<usize, Refusal>
    ensures { encoding result out.new ≡ encode cid (cid_values c) out.old }
{
    content::emit(fit(c), words(c), out)
}

// The register as an R2 carries it.
pub fn sixteen(c: Cid) -> [u8; 16]
    ensures { result ≡ image cid (cid_values c) }
{
    content::sixteen(words(c))
}

// The fields of two words of content.
pub fn fields(words: Words) -> Cid
    ensures { cid_values result ≡ read cid.slots (content words.first words.rest) }
{
    let Words { first, rest } = words;
    Cid {
        mid: field(first, 56, 8) as u8,
        oid: field(first, 40, 16) as u16,
        pnm: field(first, 0, 40),
        prv: field(rest, 48, 8) as u8,
        psn: field(rest, 16, 32) as u32,
        mdt: field(rest, 0, 12) as u16,
    }
}

pub fn decode(s: &[u8]) -> Result<Cid, Refusal>
    ensures { cid_read result ≡ decode cid s.now }
{
    content::judge(s)?;
    Ok(fields(Words::from_bytes(s)))
}
