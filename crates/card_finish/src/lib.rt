// SD mode: what a frame shows, and what a command that ran clears.
#![tactic(auto)]

ghost use Rattle.std.specs.Prelude.{◌≡◌};
ghost use Rattle.card.specs.Frame.{cleared, finish};
ghost use Rattle.card.specs.Receive.{chosen, shown_sd, show_sd};
ghost use Rattle.card_turn.specs.Turned.{turned};

use card::command::Command;
use card::done::{Done, Flag, Judged, Response};
use card::{Core, Mode};
use card_record::{raise, with_app, with_kept, with_mode};
use card_respond::Message;
use card_spi::finish_spi;
use card_status::word::status;
use card_status::{no_bits, without_illegal};
use card_turn::{Turned, quiet};

// R1 carries every bit that is kept, and clears it; the others clear ILLEGAL_COMMAND alone.
#[tactic(auto, unfolding(card::specs::Frame::cleared))]
fn cleared(response: Response, c: Core) -> Core
    ensures { result ≡ cleared response c }
{
    match response {
        Response::R1 => with_kept(c, no_bits()),
        _ => with_kept(c, without_illegal(c.kept)),
    }
}

// A command that ran; `state` is the number of the state at reception, and no State: it promises its answer for any number.
pub fn finish(command: Command, state: u8, done: Done) -> Turned
    ensures { turned result ≡ finish command state done }
{
    let message = Message::Sd {
        response: done.response,
        index: card_table::index(command),
        word: status(
            done.core.kept,
            done.core.locked,
            state,
            card_table::shows_app(command),
        ),
    };
    Turned {
        core: with_app(
            cleared(done.response, done.core),
            card_table::sets_app(command),
        ),
        flag: Flag::Clear,
        message,
        effect: done.effect,
    }
}

// The mode that command 0 chooses with chip select low.
fn chosen(done: Done) -> Done
    ensures { result ≡ chosen done }
{
    Done {
        core: with_mode(done.core, Mode::Spi { checks: false }),
        ..done
    }
}

// A command that ran on the record c, in the mode that it leaves.
#[tactic(auto, unfolding(card::specs::Receive::shown_sd, card::specs::Table::row))]
fn shown_sd(c: Core, low: bool, command: Command, done: Done) -> Turned
    ensures { turned result ≡ shown_sd c low command done }
{
    if low && matches!(command, Command::GoIdleState) {
        finish_spi(c, command, chosen(done))
    } else {
        finish(command, u8::from(c.bus.state), done)
    }
}

// `low`: chip select is low.
#[tactic(auto, unfolding(card::specs::Receive::show_sd))]
pub fn show_sd(c: Core, low: bool, judged: Judged) -> Turned
    ensures { turned result ≡ show_sd c low judged }
{
    match judged {
        Judged::NotAllowed { .. } => quiet(
            with_app(raise(c, card_status::ILLEGAL_COMMAND), false),
            Flag::Keep,
        ),
        Judged::OtherCard { .. } => quiet(with_app(c, false), Flag::Keep),
        Judged::Ran { command, done } => shown_sd(c, low, command, done),
    }
}
