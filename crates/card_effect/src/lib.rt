// What a call does to memory and protection marks, in one place. An effect that memory has no room for does nothing.
#![tactic(auto)]

ghost use Rattle.std.specs.Prelude.{◌≡◌, cond, ◌+◌, ◌-◌, ◌*◌, ◌^◌, ◌<◌, ◌≤◌, leb, length, replicate};
ghost use Rattle.card.specs.Settings as Sizes;
ghost use Rattle.card.specs.Effects.{stored, over, swept_block, swept, affected};
ghost use Rattle.card_effect.specs.Apply.{reaches, zeroed};

use card::done::Effect;
use card::size::BLOCK;
use card_protect::{guarded_block, mark};

// Zeroes bytes, but for so many at the end; every caller says 0, so that a wrong force erase differs from the right one in a number alone.
fn zero(kept: usize, part: &mut [u8])
    ensures { part.new ≡ zeroed (length part.old - kept) part.old }
{
    let n = part.len().saturating_sub(kept);
    part[..n].fill(0);
}

fn sweep_block(all: bool, marks: &[u8], memory: &mut [u8], block: u64)
    requires { (block < 2 ^ 33) × ((block + 1) * Sizes.BLOCK ≤ length memory.old) }
    ensures { memory.new ≡ swept_block all marks.now block memory.old }
{
    if guarded_block(all, marks, block) {
        return;
    }
    let start = (block * BLOCK as u64) as usize;
    let end = start + BLOCK as usize;
    zero(0, &mut memory[start..end]);
}

// Zeroes so many blocks from a number on, but for the protected ones.
fn sweep(all: bool, marks: &[u8], memory: &mut [u8], first: u32, count: u32)
    ensures { memory.new
        ≡ cond (leb ((first + count) * Sizes.BLOCK) (length memory.old))
        (swept all marks.now first count memory.old) memory.old }
{
    let start = first as u64;
    let behind = start + count as u64;
    if (memory.len() as u64) < behind * BLOCK as u64 {
        return;
    }
    for block in start..behind {
        sweep_block(all, marks, memory, block);
    }
}

// Puts a payload at an address.
fn store(address: u32, payload: &[u8], memory: &mut [u8])
    ensures { memory.new
        ≡ cond (leb (address + length payload.now) (length memory.old))
        (over memory.old address payload.now) memory.old }
{
    let start = address as usize;
    let end = start + payload.len();
    if memory.len() < end {
        return;
    }
    codec::copy(&mut memory[start..end], payload);
}

// Zeroes every block, protected or not, and every mark.
fn force_erase(memory: &mut [u8], marks: &mut [u8])
    ensures { stored memory.new marks.new
        ≡ stored (replicate (length memory.old) 0) (replicate (length marks.old) 0) }
{
    zero(0, memory);
    zero(0, marks);
}

#[tactic(auto, unfolding(card::specs::Effects::affected))]
pub fn apply(all: bool, effect: Effect, payload: &[u8], memory: &mut [u8], marks: &mut [u8])
    ensures { stored memory.new marks.new
        ≡ cond (reaches effect (length payload.now) (length memory.old))
        (affected all effect payload.now (stored memory.old marks.old))
        (stored memory.old marks.old) }
{
    match effect {
        Effect::Nothing => (),
        Effect::Store { address } => store(address, payload, memory),
        Effect::Sweep { first, count } => sweep(all, marks, memory, first, count),
        Effect::Protect { group, value } => mark(value, marks, group),
        Effect::ForceErase => force_erase(memory, marks),
    }
}
