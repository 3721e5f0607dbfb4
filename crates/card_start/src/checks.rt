// Start checks, in their order: the bit of the first that fails.
ghost use Rattle.std.specs.Prelude.{◌≡◌};
ghost use Rattle.card.specs.Checks.{first_failure, address_checks, read_checks, write_checks};
ghost use Rattle.card_start.specs.Outcome.{failure, outcome};

use crate::done::ran;
use card::Core;
use card::done::{Done, Response};
use card::size::BLOCK;
use card_record::raise;
use card_settings::outside;
use card_status::{ADDRESS_ERROR, BLOCK_LEN_ERROR, OUT_OF_RANGE, WP_VIOLATION};

#[tactic(auto, unfolding(card::specs::Checks::first_failure))]
pub fn address_check(top: u64, address: u32) -> Result<(), u8>
    ensures { failure result ≡ first_failure (address_checks top address) }
{
    if outside(top, address) {
        return Err(OUT_OF_RANGE);
    }
    Ok(())
}

#[tactic(auto, unfolding(card::specs::Checks::first_failure))]
pub fn read_check(top: u64, length: u16, address: u32) -> Result<(), u8>
    ensures { failure result ≡ first_failure (read_checks top length address) }
{
    address_check(top, address)?;
    if address % BLOCK + u32::from(length) <= BLOCK {
        return Ok(());
    }
    Err(ADDRESS_ERROR)
}

#[tactic(auto, unfolding(card::specs::Checks::first_failure))]
pub fn write_check(top: u64, length: u16, wp: bool, address: u32) -> Result<(), u8>
    ensures { failure result ≡ first_failure (write_checks top length wp address) }
{
    if u32::from(length) != BLOCK {
        return Err(BLOCK_LEN_ERROR);
    }
    address_check(top, address)?;
    if address % BLOCK != 0 {
        return Err(ADDRESS_ERROR);
    }
    if wp {
        return Err(WP_VIOLATION);
    }
    Ok(())
}

// What a command does, unless a start check failed: then R1 shows the bit of that number, which may be any.
pub fn checked(c: Core, verdict: Result<(), u8>, done: Done) -> Done
    ensures { result ≡ outcome c (failure verdict) done }
{
    match verdict {
        Ok(()) => done,
        Err(bit) => ran(raise(c, bit), Response::R1),
    }
}
