// A data block in. The record by value and back; memory is lent.
#![tactic(auto)]

ghost use Rattle.std.specs.Prelude.{◌≡◌, []};
ghost use Rattle.card.specs.Step.{block_in};
ghost use Rattle.card_call.specs.Seen.{returned, stepped};

mod enter;
mod turn;

use card::Card;
use card::answer::Answer;
use card::command::Command;
use card_call::{Stepped, answered, refused};
use card_refuse::{check, rows};
use card_start::moves::moved;
use card_state::checking;
use card_token::{Arrived, incoming, other_block, token_size};
use codec::{Refusal, behind};

pub fn block_in(card: Card, block: &[u8], memory: &mut [u8]) -> Stepped
    ensures { returned result memory.new [] ≡ stepped card memory.old (block_in block.now) }
{
    let mode = card.core.bus.mode;
    let open = card_state::open(card.core.bus.state);
    let r = rows(
        card.core,
        card.password.length,
        memory.len(),
        other_block(mode, open, card.core.length, block.len()),
        false,
        !card_state::writing(open),
    );
    if let Err(refusal) = check(
        &[
            Refusal::Record,
            Refusal::Size,
            Refusal::Memory,
            Refusal::Closed,
        ],
        r,
    ) {
        return refused(card, refusal);
    }
    match incoming(mode, open, block) {
        Arrived::Packet => enter::enter(
            card,
            open,
            checking(mode),
            behind(block, token_size(mode)),
            memory,
        ),
        Arrived::Stop => {
            let next = moved(Command::StopTransmission, card.core);
            answered(card, next, Answer::Silence)
        }
        Arrived::Ignored => Stepped {
            answer: Answer::Silence,
            card,
        },
    }
}
