// The size pair: a block count as C_SIZE and the smallest C_SIZE_MULT.
#![tactic(auto)]

ghost use Rattle.std.specs.Prelude.{◌≡◌};
ghost use Rattle.reg_size.specs.Size.{size_pair};

#[derive(Clone, Copy, Debug, PartialEq, Eq)]
pub struct SizePair {
    pub c_size: u16,
    pub c_size_mult: u8,
}

// The pair that gives so many blocks, or none.
pub fn size_pair(blocks: u32) -> Option<SizePair>
    ensures { result ≡ size_pair blocks }
{
    for c_size_mult in 0..8u8 {
        let unit = 1u32 << (c_size_mult + 2);
        if blocks % unit == 0 && blocks > 0 && blocks / unit <= 4096 {
            return Some(SizePair {
                c_size: (blocks / unit - 1) as u16,
                c_size_mult,
            });
        }
    }
    None
}
