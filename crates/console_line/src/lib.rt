// A console's line, played.
#![tactic(auto)]

use card::Card;
use console_answer::power;
use console_call::call;
use console_memory::{lent, show};
use replay_answer::Replayed;

pub fn play(card: Card, memory: &mut [u8], line: &[u8], text: &mut [u8]) -> Replayed {
    if let Some(fields) = line.strip_prefix(b"power\t") {
        return power(card, memory, fields, text);
    }
    if let Some(field) = line.strip_prefix(b"mem\t") {
        return Replayed {
            card,
            wrote: show(memory, field, text),
        };
    }
    let n = lent(card.core.settings.blocks, memory.len());
    call(card, &mut memory[..n], line, text)
}
