// Which rows of the table of refused calls apply to what a call is handed, and the first of a call's own rows that does.
#![tactic(auto)]

ghost use Rattle.std.specs.Prelude.{◌≡◌, map};
ghost use Rattle.card.specs.Step.{applies, refusal};
ghost use Rattle.codec.specs.Answer.{row_of, row_in};
ghost use Rattle.card_refuse.specs.Rows.{rows_of};

use card::Core;
use card::answer::Rows;
use card_settings::capacity;
use card_sound::{bad_password, unsound};
use codec::Refusal;

// For the calls but power-up, with the lengths of the password and of memory. The last three stand in the table's order, in which `Rows`
// would only name them once more.
pub fn rows(c: Core, password: u8, memory: usize, size: bool, buffer: bool, closed: bool) -> Rows
    ensures { result ≡ rows_of c password memory size buffer closed }
{
    Rows {
        size,
        unsound: unsound(c) | bad_password(c.locked, password),
        memory: memory as u64 != capacity(c.settings.blocks),
        buffer,
        closed,
        settings: false,
    }
}

#[tactic(auto, unfolding(card::specs::Step::applies))]
fn applies(r: Rows, refusal: Refusal) -> bool
    ensures { result ≡ applies r (row_of refusal) }
{
    match refusal {
        Refusal::Size => r.size,
        Refusal::Record => r.unsound,
        Refusal::Memory => r.memory,
        Refusal::Buffer => r.buffer,
        Refusal::Closed => r.closed,
        Refusal::Setting => r.settings,
        Refusal::Wrong | Refusal::Field | Refusal::Other(_) => false,
    }
}

// The first of a call's rows that applies is its refusal.
pub fn check(order: &[Refusal], r: Rows) -> Result<(), Refusal>
    ensures { row_in result ≡ refusal (map row_of order.now) r }
{
    for refusal in order {
        if applies(r, *refusal) {
            return Err(*refusal);
        }
    }
    Ok(())
}
