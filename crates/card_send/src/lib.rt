// The answers of a take: a payload straight into the output buffer with its check, and its token in SPI mode; or a transfer that is held.
#![tactic(auto)]

ghost use Rattle.std.specs.Prelude.{◌≡◌, List, ℕ, replicate};
ghost use Rattle.card.specs.declared.State.TheVariants.{Tran};
ghost use Rattle.card.specs.Settings.{cid_bytes, csd_bytes, scr_bytes};
ghost use Rattle.card.specs.Data.{word32, mark_bytes, hold_read};
ghost use Rattle.card_call.specs.Seen.{returned, turned};
ghost use Rattle.card_send.specs.Sending.{sent};

mod block;

use block::encode_block;
use card::answer::Answer;
use card::{Card, Source, State};
use card_call::{Stepped, answered};
use card_protect::mark_word;
use card_record::{raise, with_state};
use card_state::{Transfer, in_spi};

// The payload, and on to the next state.
pub fn send(card: Card, next: State, payload: &[u8], out: &mut [u8]) -> Stepped
    ensures { (memory : List ℕ)
        → returned result memory out.new
        ≡ sent card next payload.now memory out.old }
{
    let answer = Answer::from(encode_block(in_spi(card.core.bus.mode), payload, out));
    answered(card, with_state(card.core, next), answer)
}

// A number of 32 bits, high byte first; the transfer is over.
pub fn send_word(card: Card, word: u32, out: &mut [u8]) -> Stepped
    ensures { (memory : List ℕ)
        → returned result memory out.new
        ≡ sent card Tran (word32 word) memory out.old }
{
    let mut payload: [u8; 4] = [0; 4];
    codec::put32(&mut payload, word);
    send(card, State::Tran, &payload, out)
}

// 30: the marks from the group of an address on.
pub fn send_marks(card: Card, address: u32, out: &mut [u8]) -> Stepped
    ensures { (memory : List ℕ)
        → returned result memory out.new ≡ sent card Tran (mark_bytes card.core address) memory out.old }
{
    let word = mark_word(card.core.settings.blocks, &card.core.marks, address);
    send_word(card, word, out)
}

// These answers are a line or two over `send` each, which one function with a payload for each source would not be.

// The SD status is all zero.
pub fn send_status(card: Card, out: &mut [u8]) -> Stepped
    ensures { (memory : List ℕ)
        → returned result memory out.new ≡ sent card Tran (replicate 64 0) memory out.old }
{
    send(card, State::Tran, &[0; 64], out)
}

pub fn send_scr(card: Card, out: &mut [u8]) -> Stepped
    ensures { (memory : List ℕ)
        → returned result memory out.new ≡ sent card Tran scr_bytes memory out.old }
{
    send(card, State::Tran, &[2, 1, 0, 0, 0, 0, 0, 0], out)
}

// 9 and 10 in SPI mode.

pub fn send_csd(card: Card, out: &mut [u8]) -> Stepped
    ensures { (memory : List ℕ)
        → returned result memory out.new ≡ sent card Tran (csd_bytes card.core.csd) memory out.old }
{
    let csd = reg_csd::sixteen(card.core.csd);
    send(card, State::Tran, &csd, out)
}

pub fn send_cid(card: Card, out: &mut [u8]) -> Stepped
    ensures { (memory : List ℕ)
        → returned result memory out.new ≡ sent card Tran (cid_bytes card.core.settings) memory out.old }
{
    let cid = reg_cid::cid::sixteen(card.core.settings.cid);
    send(card, State::Tran, &cid, out)
}

// A status bit by its number; the transfer is silent until it is ended.
pub fn hold(card: Card, bit: u8, t: Transfer) -> Stepped
    ensures { (memory out : List ℕ) → returned result memory out ≡ turned card memory out (hold_read card.core t.multiple t.address bit) }
{
    let held = State::Data(Source::from(Transfer { held: true, ..t }));
    answered(
        card,
        with_state(raise(card.core, bit), held),
        Answer::Silence,
    )
}
