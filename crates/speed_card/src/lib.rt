// Commands 18 and 25 on the proved card, in either bus mode, exported for a Rust program to measure.
#![tactic(auto)]

ghost use Rattle.std.specs.Prelude.{◌≡◌, [], ◌≤◌};
ghost use Rattle.card.specs.Step.{answer, take_block};
ghost use Rattle.speed_open.specs.Begun.{begun};
ghost use Rattle.card.specs.Step.{world};
ghost use Rattle.speed_card.specs.Blocks.{READ, WRITE, right, ran, many, again};

use card::Card;
use card::answer::Answer;

// 1 where a whole block was sent, or one was accepted.
fn right(a: Answer) -> u32
    ensures { (result ≡ right (answer a)) × (result ≤ 1) }
{
    match a {
        Answer::Sent(n) if n >= 514 => 1,
        Answer::Accepted => 1,
        _ => 0,
    }
}

// This loop and the next differ in the call; handed the call as a closure, one loop took a tenth longer for a block of 25.
fn take_many(card: Card, memory: &[u8], out: &mut [u8], count: u32) -> u32
    ensures { ran memory.now out.new result
        ≡ many take_block count (world card memory.now) out.old }
{
    let mut now = card;
    let mut n: u32 = 0;
    for _ in 0..count {
        let s = card_take::take(now, memory, out);
        now = s.card;
        n += right(s.answer);
    }
    n
}

fn give_many(card: Card, block: &[u8], memory: &mut [u8], count: u32) -> u32
    ensures { ran memory.new [] result
        ≡ many (again block.now) count (world card memory.old) [] }
{
    let mut now = card;
    let mut n: u32 = 0;
    for _ in 0..count {
        let s = card_block_in::block_in(now, block, memory);
        now = s.card;
        n += right(s.answer);
    }
    n
}

// So many blocks of 18, into one buffer; how many were sent whole.
#[unsafe(no_mangle)]
pub extern "C" fn proved_reads(spi: bool, memory: &mut [u8], out: &mut [u8], count: u32) -> u32
    ensures { ran memory.new out.new result
        ≡ many take_block count (begun spi READ memory.old) out.old }
{
    let card = speed_open::open(spi, [0x52, 0, 0, 0, 0, 0xE1], memory);
    take_many(card, memory, out, count)
}

// One block so many times by 25; how many were accepted.
#[unsafe(no_mangle)]
pub extern "C" fn proved_writes(spi: bool, memory: &mut [u8], block: &[u8], count: u32) -> u32
    ensures { ran memory.new [] result
        ≡ many (again block.now) count (begun spi WRITE memory.old) [] }
{
    let card = speed_open::open(spi, [0x59, 0, 0, 0, 0, 0x03], memory);
    give_many(card, block, memory, count)
}
