// The commands that open a transfer, set its block length, or change protection.
#![tactic(auto)]

ghost use Rattle.std.specs.Prelude.{◌≡◌};
ghost use Rattle.card.specs.declared.Source.TheVariants.{WriteProtect};
ghost use Rattle.card.specs.declared.State.TheVariants.{Data, Rcv};
ghost use Rattle.card.specs.declared.done.Response.TheVariants.{R1};
ghost use Rattle.card.specs.Settings.{capacity};
ghost use Rattle.card.specs.Checks.{address_checks};
ghost use Rattle.card.specs.Execute.{ran, opening, checked, set_blocklen, read_blocks, write_blocks, set_mark};

use card::command::Command;
use card::done::{Done, Effect, Response};
use card::size::BLOCK;
use card::{Core, Sink, Source, State};
use card_protect::{group_of, guarded, whole};
use card_record::{raise, with_length, with_written};
use card_settings::capacity;
use card_start::checks::{address_check, checked, read_check, write_check};
use card_start::done::ran;
use card_start::moves::{moved, opening};
use card_state::Transfer;
use card_status::BLOCK_LEN_ERROR;

pub fn set_blocklen(c: Core, argument: u32) -> Done
    ensures { result ≡ set_blocklen c argument }
{
    if !(1..=BLOCK).contains(&argument) {
        return ran(raise(c, BLOCK_LEN_ERROR), Response::R1);
    }
    ran(with_length(c, argument as u16), Response::R1)
}

// The state t is the transfer that the command opens.
fn opened(command: Command, c: Core, t: State, response: Response) -> Done
    ensures { result ≡ ran (opening command c t) response }
{
    ran(opening(command, c, t), response)
}

// A13, A22 and A51, 9 and 10 in SPI mode, and what the other reads open.
pub fn send(command: Command, c: Core, source: Source, response: Response) -> Done
    ensures { result ≡ ran (opening command c (Data source)) response }
{
    opened(command, c, State::Data(source), response)
}

// 42.
pub fn lock_unlock(c: Core) -> Done
    ensures { result ≡ ran (opening Command.LockUnlock c (Rcv Sink.LockUnlock)) R1 }
{
    opened(
        Command::LockUnlock,
        c,
        State::Rcv(Sink::LockUnlock),
        Response::R1,
    )
}

pub fn read_blocks(command: Command, c: Core, multiple: bool, address: u32) -> Done
    ensures { result ≡ read_blocks command c multiple address }
{
    let verdict = read_check(capacity(c.settings.blocks), c.length, address);
    let source = Source::from(Transfer {
        multiple,
        address,
        held: false,
    });
    checked(c, verdict, send(command, c, source, Response::R1))
}

pub fn write_blocks(command: Command, c: Core, multiple: bool, address: u32) -> Done
    ensures { result ≡ write_blocks command c multiple address }
{
    let all = whole(c.settings);
    let wp = guarded(all, &c.marks, address);
    let verdict = write_check(capacity(c.settings.blocks), c.length, wp, address);
    let sink = Sink::from(Transfer {
        multiple,
        address,
        held: false,
    });
    let next = with_written(opening(command, c, State::Rcv(sink)), 0);
    checked(c, verdict, ran(next, Response::R1))
}

// 28 and 29.
pub fn set_mark(command: Command, c: Core, value: bool, address: u32) -> Done
    ensures { result ≡ set_mark command c value address }
{
    let verdict = address_check(capacity(c.settings.blocks), address);
    let done = Done {
        core: moved(command, c),
        response: Response::R1,
        effect: Effect::Protect {
            group: group_of(address),
            value,
        },
    };
    checked(c, verdict, done)
}

// 30.
pub fn send_write_prot(c: Core, address: u32) -> Done
    ensures { result
        ≡ checked c (address_checks (capacity c.settings) address)
        (ran (opening Command.SendWriteProt c (Data (WriteProtect address))) R1) }
{
    let verdict = address_check(capacity(c.settings.blocks), address);
    let source = Source::WriteProtect { address };
    checked(
        c,
        verdict,
        send(Command::SendWriteProt, c, source, Response::R1),
    )
}
