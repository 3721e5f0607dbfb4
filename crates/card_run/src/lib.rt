// What each command does when it runs.
#![tactic(auto)]

ghost use Rattle.std.specs.Prelude.{◌≡◌};
ghost use Rattle.card.specs.Execute.{run, run_at};

use card::command::Command;
use card::done::{Done, Response};
use card::{Core, Source};
use card_erase::{erase, erase_end, erase_start};
use card_identify::{crc_on_off, read_ocr, sd_send_op_cond, send_if_cond, send_relative_addr};
use card_record::reset;
use card_settings::address_of;
use card_start::done::ran;
use card_start::moves::moving;
use card_transfer::{
    lock_unlock, read_blocks, send, send_write_prot, set_blocklen, set_mark, write_blocks,
};

// With what its argument is as an address. An arm for each command, in the table's order, which arms joined
// by what they do would break; those that only answer share one.
#[tactic(auto, unfolding(card::specs::Execute::run_at))]
fn run_at(command: Command, c: Core, argument: u32, a: u32) -> Done
    ensures { result ≡ run_at command c argument a }
{
    match command {
        Command::GoIdleState => ran(reset(c), Response::Nothing),
        Command::AllSendCid => moving(Command::AllSendCid, c, Response::Cid),
        Command::SendRelativeAddr => send_relative_addr(c),
        Command::SelectCard => moving(Command::SelectCard, c, Response::R1),
        Command::DeselectCard => moving(Command::DeselectCard, c, Response::Nothing),
        Command::SendIfCond => send_if_cond(c, argument),
        Command::SendCsd => send(Command::SendCsd, c, Source::Csd, Response::Csd),
        Command::SendCid => send(Command::SendCid, c, Source::Cid, Response::Cid),
        Command::StopTransmission => moving(Command::StopTransmission, c, Response::R1),
        Command::GoInactiveState => moving(Command::GoInactiveState, c, Response::Nothing),
        Command::SetBlocklen => set_blocklen(c, argument),
        Command::ReadSingleBlock => read_blocks(Command::ReadSingleBlock, c, false, a),
        Command::ReadMultipleBlock => read_blocks(Command::ReadMultipleBlock, c, true, a),
        Command::SendWriteProt => send_write_prot(c, a),
        Command::WriteBlock => write_blocks(Command::WriteBlock, c, false, a),
        Command::WriteMultipleBlock => write_blocks(Command::WriteMultipleBlock, c, true, a),
        Command::LockUnlock => lock_unlock(c),
        Command::SetWriteProt => set_mark(Command::SetWriteProt, c, true, a),
        Command::ClrWriteProt => set_mark(Command::ClrWriteProt, c, false, a),
        Command::Erase => erase(c),
        Command::EraseWrBlkStart => erase_start(c, a),
        Command::EraseWrBlkEnd => erase_end(c, a),
        Command::SdStatus => send(Command::SdStatus, c, Source::SdStatus, Response::R1),
        Command::SendNumWrBlocks => send(
            Command::SendNumWrBlocks,
            c,
            Source::WrittenBlocks,
            Response::R1,
        ),
        Command::SendScr => send(Command::SendScr, c, Source::Scr, Response::R1),
        Command::SendStatus
        | Command::AppCmd
        | Command::SetWrBlkEraseCount
        | Command::SetClrCardDetect => ran(c, Response::R1),
        Command::SdSendOpCond => sd_send_op_cond(c, argument),
        Command::ReadOcr => read_ocr(c),
        Command::CrcOnOff => crc_on_off(c, argument),
        Command::Unknown => ran(c, Response::Nothing),
    }
}

pub fn run(command: Command, c: Core, argument: u32) -> Done
    ensures { result ≡ run command c argument }
{
    run_at(command, c, argument, address_of(argument))
}
