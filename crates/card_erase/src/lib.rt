// Erase: 32 and 33 give the first and the second address, 38 erases from the block of one through that of the other.
#![tactic(auto)]

ghost use Rattle.std.specs.Prelude.{◌≡◌, ◌≤◌};
ghost use Rattle.card.specs.Execute.{settled, erase_start, erase_end, skipped, erased, erase};

use card::command::Command;
use card::done::{Done, Effect, Response};
use card::size::BLOCK;
use card::{Core, EraseMarks};
use card_protect::{any_guarded, whole};
use card_record::erase::pending;
use card_record::{drop_erase, raise, with_erase};
use card_settings::capacity;
use card_start::checks::{address_check, checked};
use card_start::done::ran;
use card_start::moves::moved;
use card_status::{ERASE_PARAM, ERASE_RESET, ERASE_SEQ_ERROR, WP_ERASE_SKIP};
use card_table::keeps_erase;

// Any other command that runs, but 0 and 13, clears pending erase marks.
#[tactic(auto, unfolding(card::specs::Execute::settled))]
pub fn settled(command: Command, c: Core) -> Core
    ensures { result ≡ settled command c }
{
    if !keeps_erase(command) && pending(c.erase) {
        drop_erase(raise(c, ERASE_RESET))
    } else {
        c
    }
}

#[tactic(auto, unfolding(card::specs::Execute::erase_start))]
pub fn erase_start(c: Core, first: u32) -> Done
    ensures { result ≡ erase_start c first }
{
    let verdict = address_check(capacity(c.settings.blocks), first);
    let marks = EraseMarks {
        first: Some(first),
        second: None,
    };
    checked(c, verdict, ran(with_erase(c, marks), Response::R1))
}

#[tactic(auto, unfolding(card::specs::Execute::erase_end))]
pub fn erase_end(c: Core, second: u32) -> Done
    ensures { result ≡ erase_end c second }
{
    if c.erase.first.is_none() {
        return ran(drop_erase(raise(c, ERASE_SEQ_ERROR)), Response::R1);
    }
    let verdict = address_check(capacity(c.settings.blocks), second);
    let marks = EraseMarks {
        second: Some(second),
        ..c.erase
    };
    checked(c, verdict, ran(with_erase(c, marks), Response::R1))
}

// A bit for protected blocks that are skipped.
#[tactic(auto, unfolding(card::specs::Execute::skipped))]
fn skipped(c: Core, first: u32, count: u32) -> Core
    ensures { result ≡ skipped c first count }
{
    let all = whole(c.settings);
    if any_guarded(all, &c.marks, first, count) {
        raise(c, WP_ERASE_SKIP)
    } else {
        c
    }
}

// Both addresses are in order.
fn erased(c: Core, from: u32, to: u32) -> Done
    requires { from ≤ to }
    ensures { result ≡ erased c from to }
{
    let first = from / BLOCK;
    let count = to / BLOCK + 1 - first;
    let next = drop_erase(skipped(c, first, count));
    Done {
        core: moved(Command::Erase, next),
        response: Response::R1,
        effect: Effect::Sweep { first, count },
    }
}

#[tactic(auto, unfolding(card::specs::Execute::erase))]
pub fn erase(c: Core) -> Done
    ensures { result ≡ erase c }
{
    let (Some(from), Some(to)) = (c.erase.first, c.erase.second) else {
        return ran(drop_erase(raise(c, ERASE_SEQ_ERROR)), Response::R1);
    };
    if to < from {
        return ran(drop_erase(raise(c, ERASE_PARAM)), Response::R1);
    }
    erased(c, from, to)
}
