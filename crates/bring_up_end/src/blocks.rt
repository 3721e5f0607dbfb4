// The block count of a card.
ghost use Rattle.std.specs.Prelude.{◌≡◌};
ghost use Rattle.bring_up_end.specs.Blocks.{block_count};

// By C_SIZE and C_SIZE_MULT of its CSD; 0 where one is wider than the register has it, as `block_count` has it.
#[tactic(auto, unfolding(crate::specs::Blocks::block_count))]
pub fn blocks(size: u16, mult: u8) -> u32
    ensures { result ≡ block_count size mult }
{
    if size > 4095 || mult > 7 {
        return 0;
    }
    (u32::from(size) + 1) << (mult + 2)
}
