// The block of 42: what it asks for.
ghost use Rattle.std.specs.Prelude.{◌≡◌};
ghost use Rattle.card.specs.Lock.{operation_of};

#[derive(Clone, Copy)]
pub enum Operation {
    ForceErase,
    Lock,
    Unlock,
    ClearPassword,
    // a new password, and whether the card is locked with it
    SetPassword { lock: bool },
    // bits that together mean nothing
    Invalid,
}

// Bits 3..0 of its first byte: ERASE, LOCK_UNLOCK, CLR_PWD, SET_PWD.
impl From<u8> for Operation {
    ghost from_gives = { λ byte operation. operation ≡ operation_of byte };

    #[tactic(auto, unfolding(crate::specs::Lock::operation_of))]
    fn from(byte: u8) -> Operation {
        match byte % 16 {
            8 => Operation::ForceErase,
            4 => Operation::Lock,
            0 => Operation::Unlock,
            2 => Operation::ClearPassword,
            1 => Operation::SetPassword { lock: false },
            5 => Operation::SetPassword { lock: true },
            _ => Operation::Invalid,
        }
    }
}
