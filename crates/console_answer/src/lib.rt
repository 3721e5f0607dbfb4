// The console's own calls of the card: a power-up with any settings and password, and a block of any size.
#![tactic(auto)]

pub mod response;

use card::Card;
use card::answer::Answer;
use card_state::in_spi;
use codec::{behind, front};
use console_memory::lent;
use console_read::password::password;
use console_read::{SETTINGS, settings};
use replay_answer::{Replayed, answer_line, unreadable};
use replay_write::{Kind, write};
use response::data_response;

pub fn power(card: Card, memory: &[u8], fields: &[u8], text: &mut [u8]) -> Replayed {
    let (Some(settings), Some(password)) = (
        settings(front(fields, SETTINGS)),
        password(behind(fields, SETTINGS)),
    ) else {
        return unreadable(card, text);
    };
    let n = lent(settings.blocks, memory.len());
    let s = card_power::power_up(card, settings, password, &memory[..n]);
    answer_line(Kind::Response, s, &[], text)
}

// A block of any size, which the card judges. In SPI mode a data answer is a byte.
pub fn block(card: Card, memory: &mut [u8], bytes: &[u8], text: &mut [u8]) -> Replayed {
    let spi = in_spi(card.core.bus.mode);
    let s = card_block_in::block_in(card, bytes, memory);
    let wrote = match data_response(s.answer) {
        Some(byte) if spi => write(Kind::Response, Answer::Sent(1), &[byte], text),
        _ => write(Kind::Response, s.answer, &[], text),
    };
    Replayed {
        card: s.card,
        wrote,
    }
}
