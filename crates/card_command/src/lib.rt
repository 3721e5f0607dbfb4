// The call of a command frame: its refusals, the frame rules, the effect on memory and marks, and the response on the line.
#![tactic(auto)]

ghost use Rattle.std.specs.Prelude.{◌≡◌};
ghost use Rattle.card.specs.Step.{world, show, command_frame};
ghost use Rattle.card_call.specs.Seen.{returned, seen, stepped};
ghost use Rattle.card_turn.specs.Turned.{turned};
ghost use Rattle.card_command.specs.Shows.{Shows};

use card::Card;
use card_call::{Stepped, refused};
use card_effect::apply;
use card_protect::whole;
use card_receive::receive;
use card_refuse::{check, rows};
use card_respond::respond;
use card_turn::{Turned, kept};
use codec::Refusal;

// a frame, and the room for any response
const FRAME: usize = 6;

const ROOM: usize = 17;

// A call that was not refused.
fn show(card: Card, turn: Turned, memory: &mut [u8], out: &mut [u8]) -> Stepped
    requires { Shows card.core.settings turn.effect memory.old out.old }
    ensures { returned result memory.new out.new
        ≡ seen (show (world card memory.old) card.password out.old (turned turn)) }
{
    let all = whole(card.core.settings);
    let mut marks = card.core.marks;
    apply(all, turn.effect, &[], memory, &mut marks);
    let answer = respond(turn.message, turn.core, card.line.com_crc_error, out);
    Stepped {
        answer,
        card: kept(turn.core, card.password, marks, turn.flag, card.line),
    }
}

// `low`: chip select is low.
pub fn command_frame(
    card: Card,
    frame: &[u8],
    low: bool,
    memory: &mut [u8],
    out: &mut [u8],
) -> Stepped
    ensures { returned result memory.new out.new
        ≡ stepped card memory.old (command_frame frame.now low out.old) }
{
    let r = rows(
        card.core,
        card.password.length,
        memory.len(),
        frame.len() != FRAME,
        out.len() < ROOM,
        false,
    );
    if let Err(refusal) = check(
        &[
            Refusal::Size,
            Refusal::Record,
            Refusal::Memory,
            Refusal::Buffer,
        ],
        r,
    ) {
        return refused(card, refusal);
    }
    show(card, receive(card.core, low, frame), memory, out)
}
