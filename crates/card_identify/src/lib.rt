// The commands that identify the card: 3, 8 and A41; and SPI mode's own, 58 and 59.
#![tactic(auto)]

ghost use Rattle.std.specs.Prelude.{◌≡◌, ◌/◌, ◌%◌, ◌^◌, if◌then◌else◌, nat_eq};
ghost use Rattle.card.specs.declared.done.Response.TheVariants.{R6};
ghost use Rattle.card.specs.Execute.{ran, moved, next_rca, send_if_cond, send_op_cond, send_op_cond_spi, sd_send_op_cond, read_ocr, crc_on_off};
ghost use Rattle.card.specs.Record.{with_rca};
ghost use Rattle.card.specs.Settings.{ocr_of};

use card::command::Command;
use card::done::{Done, Response};
use card::{Core, Mode, State};
use card_record::{with_mode, with_polls, with_rca, with_state};
use card_start::done::ran;
use card_start::moves::moved;
use card_state::{in_idle, in_spi};

// One more than the last published; FFFFh is followed by 0001h.
fn next_rca(last: u16) -> u16
    ensures { result ≡ next_rca last }
{
    last.wrapping_add(1).max(1)
}

pub fn send_relative_addr(c: Core) -> Done
    ensures { result ≡ ran (moved Command.SendRelativeAddr (with_rca c (next_rca c.bus.published))) R6 }
{
    let address = next_rca(c.bus.published);
    ran(
        moved(Command::SendRelativeAddr, with_rca(c, address)),
        Response::R6,
    )
}

// 1 where the voltage field is accepted.
fn voltage(argument: u32) -> u8
    ensures { result ≡ (if nat_eq (argument / 2 ^ 8 % 2 ^ 4) 1 then 1 else 0) }
{
    u8::from((argument >> 8) & 15 == 1)
}

// The voltage that is accepted, or 0, and the pattern.
pub fn send_if_cond(c: Core, argument: u32) -> Done
    ensures { result ≡ send_if_cond c argument }
{
    ran(
        c,
        Response::R7 {
            voltage: voltage(argument),
            pattern: (argument & 255) as u8,
        },
    )
}

// The window, and bit 31 where the card is ready.
fn ocr(finished: bool) -> u32
    ensures { result ≡ ocr_of finished }
{
    if finished { 0x80FF_8000 } else { 0x00FF_8000 }
}

// A query shows the OCR; a voltage that does not fit is the end; else a poll is used up, or the card is ready.
#[tactic(auto, unfolding(card::specs::Execute::send_op_cond))]
fn send_op_cond(c: Core, argument: u32) -> Done
    ensures { result ≡ send_op_cond c argument }
{
    let polls = c.bus.polls;
    if argument & 0xFF_FFFF == 0 {
        return ran(c, Response::R3(ocr(polls == 0)));
    }
    if (argument & 0xFF_FFFF) >> 15 == 0 {
        return ran(with_state(c, State::Ina), Response::Nothing);
    }
    if polls == 0 {
        return ran(with_state(c, State::Ready), Response::R3(ocr(true)));
    }
    ran(with_polls(c, polls - 1), Response::R3(ocr(false)))
}

// SPI mode: no window is looked at, and outside idle nothing is to be done.
#[tactic(auto, unfolding(card::specs::Execute::send_op_cond_spi))]
fn send_op_cond_spi(c: Core) -> Core
    ensures { result ≡ send_op_cond_spi c }
{
    let left = c.bus.polls;
    if !in_idle(c.bus.state) {
        return c;
    }
    if left == 0 {
        return with_state(c, State::Tran);
    }
    with_polls(c, left - 1)
}

// A41.
#[tactic(auto, unfolding(card::specs::Execute::sd_send_op_cond))]
pub fn sd_send_op_cond(c: Core, argument: u32) -> Done
    ensures { result ≡ sd_send_op_cond c argument }
{
    if in_spi(c.bus.mode) {
        ran(send_op_cond_spi(c), Response::R1)
    } else {
        send_op_cond(c, argument)
    }
}

// 58: bit 31 outside idle only.
pub fn read_ocr(c: Core) -> Done
    ensures { result ≡ read_ocr c }
{
    ran(c, Response::R3(ocr(!in_idle(c.bus.state))))
}

// 59: bit 0 turns the checks on.
pub fn crc_on_off(c: Core, argument: u32) -> Done
    ensures { result ≡ crc_on_off c argument }
{
    let mode = Mode::Spi {
        checks: argument & 1 == 1,
    };
    ran(with_mode(c, mode), Response::R1)
}
