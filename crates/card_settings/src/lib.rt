// Sizes of the card, the settings that are allowed, and the CSD that they give.
#![tactic(auto)]

ghost use Rattle.std.specs.Prelude.{◌≡◌, ◌+◌, ◌-◌, ◌*◌, ◌/◌};
ghost use Rattle.card.specs.declared.Settings.{Settings};
ghost use Rattle.card.specs.Settings.{address_of, allowed, csd_of};
ghost use Rattle.card.specs.Settings as Sizes;
ghost use Rattle.card.specs.Checks.{outside};
ghost use Rattle.card.specs.Data.{without_temporary};

pub mod register;

use card::Settings;
use card::size::{BLOCK, GROUP};
use reg_csd::Csd;
use reg_size::{SizePair, size_pair};

// Limits of the block count and of the start polls.
pub const LEAST: u32 = 4;

pub const MOST: u32 = 65536;

pub const POLLS: u8 = 15;

// The first byte address behind so many blocks.
pub fn capacity(blocks: u32) -> u64
    ensures { result ≡ blocks * Sizes.BLOCK }
{
    u64::from(blocks) * u64::from(BLOCK)
}

// At or above capacity.
pub fn outside(top: u64, address: u32) -> bool
    ensures { result ≡ outside top address }
{
    top <= u64::from(address)
}

// How many protection groups so many blocks have; the last may be short.
pub fn groups(blocks: u32) -> u64
    ensures { result ≡ (blocks + (Sizes.GROUP - 1)) / Sizes.GROUP }
{
    (u64::from(blocks) + u64::from(GROUP - 1)) / u64::from(GROUP)
}

// The byte address that the argument of a command means.
pub fn address_of(argument: u32) -> u32
    ensures { (s : Settings) → result ≡ address_of s argument }
{
    argument
}

#[tactic(auto, unfolding(card::specs::Settings::allowed))]
pub fn allowed(s: Settings) -> bool
    ensures { result ≡ allowed s }
{
    (LEAST..=MOST).contains(&s.blocks)
        && size_pair(s.blocks).is_some()
        && s.polls <= POLLS
        && reg_cid::cid::fit(s.cid)
}

// The CSD that the card gives, field by field as the definition has it: with the zeros behind `..Csd::default()` its proof did not close.
pub fn csd_of(s: Settings) -> Csd
    ensures { result ≡ csd_of s }
{
    let pair = size_pair(s.blocks).unwrap_or(SizePair {
        c_size: 0,
        c_size_mult: 0,
    });
    Csd {
        csd_structure: 0,
        taac: 0x26,
        nsac: 0,
        tran_speed: 0x32,
        ccc: 0x1F5,
        read_bl_len: 9,
        read_bl_partial: true,
        write_blk_misalign: false,
        read_blk_misalign: false,
        dsr_imp: false,
        c_size: pair.c_size,
        vdd_r_curr_min: 0,
        vdd_r_curr_max: 0,
        vdd_w_curr_min: 0,
        vdd_w_curr_max: 0,
        c_size_mult: pair.c_size_mult,
        erase_blk_en: true,
        sector_size: GROUP as u8 - 1,
        wp_grp_size: 0,
        wp_grp_enable: true,
        r2w_factor: 0,
        write_bl_len: 9,
        write_bl_partial: false,
        file_format_grp: false,
        copy: false,
        perm_write_protect: s.permanent,
        tmp_write_protect: s.temporary,
        file_format: 0,
    }
}

// Temporary protection goes, as after a force erase.
pub fn without_temporary(s: Settings) -> Settings
    ensures { result ≡ without_temporary s }
{
    Settings {
        temporary: false,
        ..s
    }
}
