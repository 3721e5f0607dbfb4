// The card status that a response shows.
ghost use Rattle.std.specs.Prelude.{◌≡◌, true, false, ◌+◌, ◌^◌, ◌≤◌, ◌<◌};
ghost use Rattle.card.specs.State.{ready_for};
ghost use Rattle.card.specs.Status.{at, status};

use card::Kept;

// The standard's numbers of the two busy states: `status` promises its word for any number.
const PRG: u8 = 7;

const DIS: u8 = 8;

// A bit at its number; in SPI mode R1 has weights (`card_spi::byte`).
fn bit(value: bool, n: u8) -> u32
    requires { n < 32 }
    ensures { (result ≡ at n value) × (result ≤ 2 ^ n) }
{
    u32::from(value) << n
}

// READY_FOR_DATA
fn ready_for(state: u8) -> bool
    ensures { result ≡ ready_for state }
{
    !matches!(state, PRG | DIS)
}

// The kept bits: what an unlocked card in idle shows but for READY_FOR_DATA.
#[tactic(auto, unfolding(card::specs::Status::status))]
fn kept_bits(k: Kept) -> u32
    ensures { (result + at 8 true ≡ status k false 0 false) × (result ≤ 0xFD40A000) }
{
    bit(k.out_of_range, crate::OUT_OF_RANGE)
        + bit(k.address_error, crate::ADDRESS_ERROR)
        + bit(k.block_len_error, crate::BLOCK_LEN_ERROR)
        + bit(k.erase_seq_error, crate::ERASE_SEQ_ERROR)
        + bit(k.erase_param, crate::ERASE_PARAM)
        + bit(k.wp_violation, crate::WP_VIOLATION)
        + bit(k.lock_unlock_failed, crate::LOCK_UNLOCK_FAILED)
        + bit(k.illegal_command, crate::ILLEGAL_COMMAND)
        + bit(k.wp_erase_skip, crate::WP_ERASE_SKIP)
        + bit(k.erase_reset, crate::ERASE_RESET)
}

// The word without COM_CRC_ERROR, with the number of the state at reception.
#[tactic(auto, unfolding(card::specs::Status::status))]
pub fn status(k: Kept, locked: bool, state: u8, app: bool) -> u32
    ensures { result ≡ status k locked state app }
{
    kept_bits(k)
        + bit(locked, crate::CARD_IS_LOCKED)
        + (state as u32) * 512
        + bit(ready_for(state), 8)
        + bit(app, 5)
}
