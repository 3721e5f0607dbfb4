// Protection of blocks: groups with a mark each, eight marks to a byte, the lowest first; and the protected card.
#![tactic(auto)]

ghost use Rattle.std.specs.Prelude.{◌≡◌, ◌||◌, ◌&&◌, [], ◌∷◌, ◌++◌, ℕ, ◌+◌, ◌-◌, ◌*◌, ◌/◌, ◌<◌, ◌≤◌, ltb};
ghost use Rattle.crc.specs.Bits.{bit, bits};
ghost use Rattle.card.specs.Settings as Sizes;
ghost use Rattle.card.specs.Protect.{whole, group_of, marked, put_bit, mark, guarded, any_guarded, mark_bits};

use card::Settings;
use card::size::{BLOCK, GROUP};
use card_settings::groups;

fn bit(byte: u8, k: u32) -> bool
    requires { k < 8 }
    ensures { result ≡ bit byte k }
{
    (byte >> k) & 1 == 1
}

// The byte with one bit made 1 or 0: flipped where it differs.
fn put_bit(value: bool, k: u32, byte: u8) -> u8
    requires { k < 8 }
    ensures { result ≡ put_bit value k byte }
{
    if bit(byte, k) == value {
        byte
    } else {
        byte ^ (1 << k)
    }
}

// The permanent or temporary bit protects every block.
pub fn whole(s: Settings) -> bool
    ensures { result ≡ whole s }
{
    s.permanent || s.temporary
}

// The group of a byte address.
pub fn group_of(address: u32) -> u32
    ensures { result ≡ group_of address }
{
    address / (GROUP * BLOCK)
}

// A group behind the marks has none.
#[tactic(auto, using(crate::proofs::Marks::past_marks))]
pub fn marked(marks: &[u8], group: u64) -> bool
    ensures { result ≡ marked marks.now group }
{
    let at = (group / 8) as usize;
    at < marks.len() && bit(marks[at], (group % 8) as u32)
}

// Sets or clears the mark of a group. By index: with `get_mut` the proof did not close.
#[tactic(auto, unfolding(card::specs::Protect::mark))]
pub fn mark(value: bool, marks: &mut [u8], group: u32)
    ensures { marks.new ≡ mark value marks.old group }
{
    let at = (group / 8) as usize;
    if at < marks.len() {
        marks[at] = put_bit(value, group % 8, marks[at]);
    }
}

// The block at a byte address is protected, with the whole card or by its group. A struct of `all` and `marks` would be no plainer:
// three callers would make it for one call each, and the fourth, `card_effect::apply`, is lent the marks to change them.
#[tactic(auto, unfolding(card::specs::Protect::guarded))]
pub fn guarded(all: bool, marks: &[u8], address: u32) -> bool
    ensures { result ≡ guarded all marks.now address }
{
    all || marked(marks, u64::from(group_of(address)))
}

// The same by the number of the block. One function for both would be no plainer: each is a line over `marked`, callers of one by the
// block would divide, and one by the address would promise less, as the last blocks' addresses are too large for a u64.
#[tactic(auto, unfolding(card::specs::Protect::guarded))]
pub fn guarded_block(all: bool, marks: &[u8], block: u64) -> bool
    ensures { result ≡ guarded all marks.now (block * Sizes.BLOCK) }
{
    all || marked(marks, block / u64::from(GROUP))
}

// Some of so many blocks from a number on is protected.
pub fn any_guarded(all: bool, marks: &[u8], first: u32, count: u32) -> bool
    ensures { result ≡ any_guarded all marks.now first count }
{
    let start = u64::from(first);
    let end = start + u64::from(count);
    for block in start..end {
        if guarded_block(all, marks, block) {
            return true;
        }
    }
    false
}

// One of so many groups, with its mark set.
fn shown(count: u64, marks: &[u8], group: u64) -> bool
    ensures { result ≡ (ltb group count && marked marks.now group) }
{
    group < count && marked(marks, group)
}

// A word with one bit more behind it.
fn append(word: u32, value: bool) -> u32
    ensures { (j : ℕ) → j + 1 ≤ 32 → bits (j + 1) result ≡ bits j word ++ (value ∷ []) }
{
    (word << 1) | u32::from(value)
}

// The marks of 32 groups from that of an address on, the lowest bit first; groups past the end read 0.
pub fn mark_word(blocks: u32, marks: &[u8], address: u32) -> u32
    ensures { bits 32 result ≡ mark_bits ((blocks + (Sizes.GROUP - 1)) / Sizes.GROUP) marks.now (group_of address) 32 }
{
    let count = groups(blocks);
    let group = group_of(address) as u64;
    let mut word: u32 = 0;
    for k in (0..32u64).rev() {
        word = append(word, shown(count, marks, group + k));
    }
    word
}
