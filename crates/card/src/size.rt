// The block length of the card, the blocks of a protection group, and the most bytes of a password.
pub const BLOCK: u32 = 512;

pub const GROUP: u32 = 32;

pub const PASSWORD: u8 = 16;
