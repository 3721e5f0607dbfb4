// Take a block from an open read transfer: a block of memory, the marks, or a register.
ghost use Rattle.std.specs.Prelude.{◌≡◌, true, false, cond};
ghost use Rattle.card.specs.declared.Source.TheVariants.{Blocks};
ghost use Rattle.card.specs.declared.State.TheVariants.{Data, Tran};
ghost use Rattle.card.specs.Data.{take_source};
ghost use Rattle.card.specs.Step.{led};
ghost use Rattle.card_call.specs.Seen.{returned, turned};
ghost use Rattle.card_take.specs.Takes.{Takes};

use card::answer::Answer;
use card::{Card, Source, State};
use card_call::Stepped;
use card_send::{hold, send, send_cid, send_csd, send_marks, send_scr, send_status, send_word};
use card_settings::capacity;
use card_start::checks::read_check;
use card_state::Transfer;

// 18 goes on behind the block, 17 returns to tran.
fn behind(t: Transfer) -> State
    ensures { result ≡ cond t.multiple (Data (Blocks true t.address false)) Tran }
{
    if t.multiple {
        State::Data(Source::from(Transfer {
            multiple: true,
            held: false,
            ..t
        }))
    } else {
        State::Tran
    }
}

// 17 and 18. What the start check of a read would refuse holds it: past the end, or across a boundary.
fn take_blocks(t: Transfer, card: Card, memory: &[u8], out: &mut [u8]) -> Stepped
    requires { Takes card.core memory.now out.old }
    ensures { returned result memory.now out.new
        ≡ turned card memory.now out.old (led card.core.bus.mode (take_source (Blocks t.multiple t.address t.held) card.core memory.now)) }
{
    if t.held {
        return Stepped {
            answer: Answer::Silence,
            card,
        };
    }
    let length = card.core.length;
    if let Err(bit) = read_check(capacity(card.core.settings.blocks), length, t.address) {
        return hold(card, bit, t);
    }
    let start = t.address as usize;
    let end = start + length as usize;
    send(
        card,
        behind(Transfer {
            address: t.address + length as u32,
            ..t
        }),
        &memory[start..end],
        out,
    )
}

pub(crate) fn take_source(source: Source, card: Card, memory: &[u8], out: &mut [u8]) -> Stepped
    requires { Takes card.core memory.now out.old }
    ensures { returned result memory.now out.new
        ≡ turned card memory.now out.old (led card.core.bus.mode (take_source source card.core memory.now)) }
{
    match source {
        Source::Blocks {
            multiple,
            address,
            held,
        } => {
            let t = Transfer {
                multiple,
                address,
                held,
            };
            take_blocks(t, card, memory, out)
        }
        Source::WriteProtect { address } => send_marks(card, address, out),
        Source::SdStatus => send_status(card, out),
        Source::WrittenBlocks => send_word(card, card.core.written, out),
        Source::Scr => send_scr(card, out),
        Source::Csd => send_csd(card, out),
        Source::Cid => send_cid(card, out),
    }
}
