// CSD 1.0: the card specific data register, encoded.
#![tactic(auto)]

ghost use Rattle.std.specs.Prelude.{◌≡◌, ◌++◌, ◌/◌, ◌^◌, take, drop};
ghost use Rattle.crc.specs.Bits.{bits};
ghost use Rattle.codec.specs.Answer.{encoding};
ghost use Rattle.codec.specs.Layout.{fits, write};
ghost use Rattle.codec.specs.Format.{image, encode};
ghost use Rattle.reg_cid.specs.Content.{content};
ghost use Rattle.reg_csd.specs.Csd.{csd, csd_slots, csd_values};

use codec::{Refusal, join};
use reg_cid::content::{self, Words};

#[derive(Clone, Copy, Debug, Default, PartialEq, Eq)]
pub struct Csd {
    pub csd_structure: u8,
    pub taac: u8,
    pub nsac: u8,
    pub tran_speed: u8,
    pub ccc: u16,
    pub read_bl_len: u8,
    pub read_bl_partial: bool,
    pub write_blk_misalign: bool,
    pub read_blk_misalign: bool,
    pub dsr_imp: bool,
    pub c_size: u16,
    pub vdd_r_curr_min: u8,
    pub vdd_r_curr_max: u8,
    pub vdd_w_curr_min: u8,
    pub vdd_w_curr_max: u8,
    pub c_size_mult: u8,
    pub erase_blk_en: bool,
    pub sector_size: u8,
    pub wp_grp_size: u8,
    pub wp_grp_enable: bool,
    pub r2w_factor: u8,
    pub write_bl_len: u8,
    pub write_bl_partial: bool,
    pub file_format_grp: bool,
    pub copy: bool,
    pub perm_write_protect: bool,
    pub tmp_write_protect: bool,
    pub file_format: u8,
}

// CSD_STRUCTURE to C_SIZE fit.
#[tactic(auto, using(crc::proofs::Bits::digit_lt), unfolding(codec::specs::Layout::fits))]
fn fit_first(c: Csd) -> bool
    ensures { result ≡ fits (take 13 csd_slots) (take 11 (csd_values c)) }
{
    c.csd_structure < 4 && c.ccc < 4096 && c.read_bl_len < 16 && c.c_size < 4096
}

// VDD_R_CURR_MIN to C_SIZE_MULT fit.
#[tactic(auto, unfolding(codec::specs::Layout::fits))]
fn fit_middle(c: Csd) -> bool
    ensures { result ≡ fits (take 5 (drop 13 csd_slots)) (take 5 (drop 11 (csd_values c))) }
{
    c.vdd_r_curr_min < 8
        && c.vdd_r_curr_max < 8
        && c.vdd_w_curr_min < 8
        && c.vdd_w_curr_max < 8
        && c.c_size_mult < 8
}

// ERASE_BLK_EN to FILE_FORMAT fit.
#[tactic(auto, using(crc::proofs::Bits::digit_lt), unfolding(codec::specs::Layout::fits))]
fn fit_last(c: Csd) -> bool
    ensures { result ≡ fits (drop 18 csd_slots) (drop 16 (csd_values c)) }
{
    c.sector_size < 128
        && c.wp_grp_size < 128
        && c.r2w_factor < 8
        && c.write_bl_len < 16
        && c.file_format < 4
}

// Every field fits its width; in three parts, since the proof of all fourteen tests as one expression did not close.
#[tactic(auto, unfolding(codec::specs::Layout::fits))]
fn fit(c: Csd) -> bool
    ensures { result ≡ fits csd.slots (csd_values c) }
{
    fit_first(c) && fit_middle(c) && fit_last(c)
}

// CSD_STRUCTURE to DSR_IMP, two reserved bits, and the high bits of C_SIZE.
fn first(c: Csd) -> u64
    ensures { bits 64 result ≡ write (take 12 csd_slots) (take 10 (csd_values c)) ++ bits 10 (c.c_size / 2 ^ 2) }
{
    let a = join(0, 2, u64::from(c.csd_structure));
    let a = join(a, 6, 0);
    let a = join(a, 8, u64::from(c.taac));
    let a = join(a, 8, u64::from(c.nsac));
    let a = join(a, 8, u64::from(c.tran_speed));
    let a = join(a, 12, u64::from(c.ccc));
    let a = join(a, 4, u64::from(c.read_bl_len));
    let a = join(a, 1, u64::from(c.read_bl_partial));
    let a = join(a, 1, u64::from(c.write_blk_misalign));
    let a = join(a, 1, u64::from(c.read_blk_misalign));
    let a = join(a, 1, u64::from(c.dsr_imp));
    let a = join(a, 2, 0);
    join(a, 10, u64::from(c.c_size >> 2))
}

// The low bits of C_SIZE, and VDD_R_CURR_MIN to WP_GRP_ENABLE.
fn middle(c: Csd) -> u64
    ensures { bits 33 result ≡ bits 2 c.c_size ++ write (take 9 (drop 13 csd_slots)) (take 9 (drop 11 (csd_values c))) }
{
    let b = join(0, 2, u64::from(c.c_size));
    let b = join(b, 3, u64::from(c.vdd_r_curr_min));
    let b = join(b, 3, u64::from(c.vdd_r_curr_max));
    let b = join(b, 3, u64::from(c.vdd_w_curr_min));
    let b = join(b, 3, u64::from(c.vdd_w_curr_max));
    let b = join(b, 3, u64::from(c.c_size_mult));
    let b = join(b, 1, u64::from(c.erase_blk_en));
    let b = join(b, 7, u64::from(c.sector_size));
    let b = join(b, 7, u64::from(c.wp_grp_size));
    join(b, 1, u64::from(c.wp_grp_enable))
}

// Two reserved bits, and R2W_FACTOR to the last reserved bits.
fn last(c: Csd) -> u64
    ensures { bits 23 result ≡ write (drop 22 csd_slots) (drop 20 (csd_values c)) }
{
    let b = join(0, 2, 0);
    let b = join(b, 3, u64::from(c.r2w_factor));
    let b = join(b, 4, u64::from(c.write_bl_len));
    let b = join(b, 1, u64::from(c.write_bl_partial));
    let b = join(b, 5, 0);
    let b = join(b, 1, u64::from(c.file_format_grp));
    let b = join(b, 1, u64::from(c.copy));
    let b = join(b, 1, u64::from(c.perm_write_protect));
    let b = join(b, 1, u64::from(c.tmp_write_protect));
    let b = join(b, 2, u64::from(c.file_format));
    join(b, 2, 0)
}

// The content, high bit first; C_SIZE lies across the two words.
fn words(c: Csd) -> Words
    ensures { content result.first result.rest ≡ write csd.slots (csd_values c) }
{
    Words {
        first: first(c),
        rest: join(middle(c), 23, last(c)),
    }
}

pub fn encode(c: Csd, out: &mut [u8]) -> Result<usize, Refusal>
    ensures { encoding result out.new ≡ encode csd (csd_values c) out.old }
{
    content::emit(fit(c), words(c), out)
}

// The register as an R2 carries it.
pub fn sixteen(c: Csd) -> [u8; 16]
    ensures { result ≡ image csd (csd_values c) }
{
    content::sixteen(words(c))
}
