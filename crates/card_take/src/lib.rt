// Take a block. The record by value and back; memory and the output buffer are lent.
#![tactic(auto)]

ghost use Rattle.std.specs.Prelude.{◌≡◌};
ghost use Rattle.card.specs.Step.{take_block};
ghost use Rattle.card_call.specs.Seen.{returned, stepped};

mod turn;

use card::answer::Answer;
use card::size::BLOCK;
use card::{Card, Open};
use card_call::{Stepped, refused};
use card_refuse::{check, rows};
use card_token::token_size;
use codec::Refusal;
use wire_packet::CHECK;

pub fn take(card: Card, memory: &[u8], out: &mut [u8]) -> Stepped
    ensures { returned result memory.now out.new ≡ stepped card memory.now (take_block out.old) }
{
    let open = card_state::open(card.core.bus.state);
    let room = token_size(card.core.bus.mode) + (BLOCK as usize + CHECK);
    let r = rows(
        card.core,
        card.password.length,
        memory.len(),
        false,
        out.len() < room,
        !card_state::reading(open),
    );
    if let Err(refusal) = check(
        &[
            Refusal::Record,
            Refusal::Memory,
            Refusal::Buffer,
            Refusal::Closed,
        ],
        r,
    ) {
        return refused(card, refusal);
    }
    match open {
        Open::Read(source) => turn::take_source(source, card, memory, out),
        Open::Nothing | Open::Write(_) | Open::Busy(_) => Stepped {
            answer: Answer::Silence,
            card,
        },
    }
}
