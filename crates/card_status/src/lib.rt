// The status bits that the card keeps, and the word that a response shows.
#![tactic(auto)]

pub mod word;

ghost use Rattle.std.specs.Prelude.{◌≡◌};
ghost use Rattle.card.specs.Status.{only, no_bits, join, without_illegal};

use card::Kept;

// Places in the word, by the standard's names. No enum: `only`, `raise`, `checked` and `hold` promise their answer for any number, wrong
// programs hand the first two 0, and an enum beside them would be turned into its number at each use.
pub const OUT_OF_RANGE: u8 = 31;

pub const ADDRESS_ERROR: u8 = 30;

pub const BLOCK_LEN_ERROR: u8 = 29;

pub const ERASE_SEQ_ERROR: u8 = 28;

pub const ERASE_PARAM: u8 = 27;

pub const WP_VIOLATION: u8 = 26;

pub const CARD_IS_LOCKED: u8 = 25;

pub const LOCK_UNLOCK_FAILED: u8 = 24;

pub const ILLEGAL_COMMAND: u8 = 22;

pub const WP_ERASE_SKIP: u8 = 15;

pub const ERASE_RESET: u8 = 13;

// The one bit of a number.
pub fn only(n: u8) -> Kept
    ensures { result ≡ only n }
{
    Kept {
        out_of_range: n == OUT_OF_RANGE,
        address_error: n == ADDRESS_ERROR,
        block_len_error: n == BLOCK_LEN_ERROR,
        erase_seq_error: n == ERASE_SEQ_ERROR,
        erase_param: n == ERASE_PARAM,
        wp_violation: n == WP_VIOLATION,
        lock_unlock_failed: n == LOCK_UNLOCK_FAILED,
        illegal_command: n == ILLEGAL_COMMAND,
        wp_erase_skip: n == WP_ERASE_SKIP,
        erase_reset: n == ERASE_RESET,
    }
}

pub fn no_bits() -> Kept
    ensures { result ≡ no_bits }
{
    Kept::default()
}

// The bits of both.
pub fn join(a: Kept, b: Kept) -> Kept
    ensures { result ≡ join a b }
{
    Kept {
        out_of_range: a.out_of_range | b.out_of_range,
        address_error: a.address_error | b.address_error,
        block_len_error: a.block_len_error | b.block_len_error,
        erase_seq_error: a.erase_seq_error | b.erase_seq_error,
        erase_param: a.erase_param | b.erase_param,
        wp_violation: a.wp_violation | b.wp_violation,
        lock_unlock_failed: a.lock_unlock_failed | b.lock_unlock_failed,
        illegal_command: a.illegal_command | b.illegal_command,
        wp_erase_skip: a.wp_erase_skip | b.wp_erase_skip,
        erase_reset: a.erase_reset | b.erase_reset,
    }
}

// ILLEGAL_COMMAND goes after every command that runs.
pub fn without_illegal(k: Kept) -> Kept
    ensures { result ≡ without_illegal k }
{
    Kept {
        illegal_command: false,
        ..k
    }
}
