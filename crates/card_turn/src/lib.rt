// What a frame comes to, in either bus mode, and the record that it leaves.
#![tactic(auto)]

ghost use Rattle.std.specs.Prelude.{◌≡◌, [], ◌∷◌};
ghost use Rattle.card.specs.Record.{with_marks};
ghost use Rattle.card.specs.Frame.{plain, quiet, said};
ghost use Rattle.card.specs.Step.{flagged};
ghost use Rattle.card_turn.specs.Turned.{turned};

use card::done::{Effect, Flag};
use card::{Card, Core, Line, Password};
use card_record::with_marks;
use card_respond::Message;

#[derive(Clone, Copy)]
pub struct Turned {
    pub core: Core,
    pub flag: Flag,
    pub message: Message,
    pub effect: Effect,
}

// Memory and marks stay.
pub fn quiet(c: Core, flag: Flag) -> Turned
    ensures { turned result ≡ quiet c flag }
{
    Turned {
        core: c,
        flag,
        message: Message::Silence,
        effect: Effect::Nothing,
    }
}

// The R1 of an error in SPI mode; memory, marks and COM_CRC_ERROR stay.
pub fn error(c: Core, byte: u8) -> Turned
    ensures { turned result ≡ said c (plain (byte ∷ [])) }
{
    Turned {
        core: c,
        flag: Flag::Keep,
        message: Message::Error(byte),
        effect: Effect::Nothing,
    }
}

#[tactic(auto, unfolding(card::specs::Step::flagged))]
fn flagged(f: Flag, line: Line) -> Line
    ensures { result ≡ flagged f line }
{
    match f {
        Flag::Keep => line,
        Flag::Set => Line {
            com_crc_error: true,
        },
        Flag::Clear => Line {
            com_crc_error: false,
        },
    }
}

// The record that a frame leaves, with the marks as its effect left them; no frame changes the password.
pub fn kept(next: Core, password: Password, marks: [u8; 256], flag: Flag, line: Line) -> Card
    ensures { result ≡ record { core = with_marks next marks; password = password; line = flagged flag line } }
{
    Card {
        core: with_marks(next, marks),
        password,
        line: flagged(flag, line),
    }
}
