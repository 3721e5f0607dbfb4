// A payload into the open transfer of 24 or 25: the place, and the store.
ghost use Rattle.std.specs.Prelude.{◌≡◌, [], true, false, cond, Some, None, ◌+◌, ◌*◌, ◌<◌, length};
ghost use Rattle.card.specs.declared.State.TheVariants.{Tran, Rcv, Prg};
ghost use Rattle.card.specs.Settings.{MOST};
ghost use Rattle.card.specs.Settings as Sizes;
ghost use Rattle.card.specs.State.{sink};
ghost use Rattle.card.specs.Data.{write_into};
ghost use Rattle.card_call.specs.Seen.{returned, turned};
ghost use Rattle.card.specs.Checks.{outside};
ghost use Rattle.card.specs.Status as Status;
ghost use Rattle.card_block_in.specs.Stores.{Stores};

use card::answer::Answer;
use card::done::Effect;
use card::size::BLOCK;
use card::{Card, Open, Sink, State};
use card_call::{Stepped, answered};
use card_effect::apply;
use card_protect::{guarded, whole};
use card_record::{raise, with_state, with_written};
use card_settings::{capacity, outside};
use card_state::Transfer;
use card_status::{OUT_OF_RANGE, WP_VIOLATION};

// The bit that holds a transfer at a place.
fn hold_bit(top: u64, wp: bool, address: u32) -> Option<u8>
    ensures { result ≡ cond (outside top address) (Some Status.OUT_OF_RANGE) (cond wp (Some Status.WP_VIOLATION) None) }
{
    if outside(top, address) {
        Some(OUT_OF_RANGE)
    } else if wp {
        Some(WP_VIOLATION)
    } else {
        None
    }
}

// A held transfer is silent until it is ended.
fn hold(t: Transfer) -> State
    ensures { result ≡ Rcv (sink t.multiple t.address true) }
{
    State::Rcv(Sink::from(Transfer { held: true, ..t }))
}

// After a wrong check 25 is held, and 24 returns to tran.
fn rejected(t: Transfer) -> State
    ensures { result ≡ cond t.multiple (Rcv (sink t.multiple t.address true)) Tran }
{
    if t.multiple { hold(t) } else { State::Tran }
}

// After a store 24 goes to prg, 25 on to the next block.
fn accepted(t: Transfer) -> State
    requires { t.address < MOST * Sizes.BLOCK }
    ensures { result ≡ cond t.multiple (Rcv (sink true (t.address + Sizes.BLOCK) false)) Prg }
{
    if t.multiple {
        State::Rcv(Sink::from(Transfer {
            multiple: true,
            address: t.address + BLOCK,
            held: false,
        }))
    } else {
        State::Prg
    }
}

pub(crate) fn write_into(
    card: Card,
    right: bool,
    payload: &[u8],
    memory: &mut [u8],
    t: Transfer,
) -> Stepped
    requires { Stores card.core t.address memory.old × (length payload.now ≡ Sizes.BLOCK) }
    ensures { returned result memory.new []
        ≡ turned card memory.old [] (write_into t.multiple t.address t.held right card.core payload.now) }
{
    if t.held {
        return Stepped {
            answer: Answer::Silence,
            card,
        };
    }
    if !right {
        let next = with_state(card.core, rejected(t));
        return answered(card, next, Answer::Rejected);
    }
    let all = whole(card.core.settings);
    let mut marks = card.core.marks;
    let wp = guarded(all, &marks, t.address);
    if let Some(bit) = hold_bit(capacity(card.core.settings.blocks), wp, t.address) {
        let next = with_state(raise(card.core, bit), hold(t));
        return answered(card, next, Answer::Silence);
    }
    let store = Effect::Store { address: t.address };
    apply(all, store, payload, memory, &mut marks);
    let counted = with_written(card.core, card.core.written + 1);
    let next = with_state(counted, accepted(t));
    answered(card, next, Answer::Accepted)
}
