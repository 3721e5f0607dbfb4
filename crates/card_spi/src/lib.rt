// SPI mode: what a frame shows, and what a command that ran clears.
#![tactic(auto)]

ghost use Rattle.std.specs.Prelude.{◌≡◌, [], ◌∷◌};
ghost use Rattle.crc.specs.Bits.{bits, bytes};
ghost use Rattle.card.specs.Spi.{sends_r2, behind_r1, finish_spi};
ghost use Rattle.card.specs.Receive.{show_spi};
ghost use Rattle.card_respond.specs.Sent.{behind};
ghost use Rattle.card_turn.specs.Turned.{turned};

pub mod byte;

use byte::{r1_byte, r2_byte, unread};
use card::command::Command;
use card::done::{Done, Flag, Judged, Response};
use card::{Core, Kept};
use card_record::{with_app, with_kept};
use card_respond::{Behind, Message};
use card_state::in_idle;
use card_status::join;
use card_turn::{Turned, error, quiet};

// 13 and A13 are answered by R2.
#[tactic(auto, unfolding(card::specs::Table::row))]
fn sends_r2(command: Command) -> bool
    ensures { result ≡ sends_r2 command }
{
    matches!(command, Command::SendStatus | Command::SdStatus)
}

// The four bytes of R7.
#[tactic(auto, using(crate::proofs::Shown::echoed))]
fn echo(voltage: u8, pattern: u8) -> u32
    ensures { bytes 4 (bits 32 result) ≡ 0 ∷ (0 ∷ (voltage ∷ (pattern ∷ []))) }
{
    u32::from(voltage) * 256 + u32::from(pattern)
}

#[tactic(auto, unfolding(card::specs::Spi::behind_r1))]
fn behind_r1(command: Command, shown: Kept, locked: bool, response: Response) -> Behind
    ensures { behind result ≡ behind_r1 command shown locked response }
{
    match response {
        Response::R1 if sends_r2(command) => Behind::Second(r2_byte(shown, locked)),
        Response::R3(ocr) => Behind::Word(ocr),
        Response::R7 { voltage, pattern } => Behind::Word(echo(voltage, pattern)),
        _ => Behind::Nothing,
    }
}

// A command that ran on the record c: R1 shows the bits held before it and its own, and idle as the command leaves it.
pub fn finish_spi(c: Core, command: Command, done: Done) -> Turned
    ensures { turned result ≡ finish_spi c.kept command done }
{
    let next = done.core;
    let shown = join(c.kept, next.kept);
    let message = Message::Spi {
        r1: r1_byte(shown, in_idle(next.bus.state)),
        behind: behind_r1(command, shown, next.locked, done.response),
    };
    Turned {
        core: with_app(
            with_kept(next, unread(sends_r2(command), next.kept)),
            card_table::sets_app(command),
        ),
        flag: Flag::Clear,
        message,
        effect: done.effect,
    }
}

#[tactic(auto, unfolding(card::specs::Receive::show_spi))]
pub fn show_spi(c: Core, judged: Judged) -> Turned
    ensures { turned result ≡ show_spi c judged }
{
    match judged {
        Judged::NotAllowed { .. } => {
            error(with_app(c, false), byte::not_allowed(in_idle(c.bus.state)))
        }
        Judged::OtherCard { .. } => quiet(c, Flag::Keep),
        Judged::Ran { command, done } => finish_spi(c, command, done),
    }
}
