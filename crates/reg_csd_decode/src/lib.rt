// CSD 1.0, decoded.
#![tactic(auto)]

ghost use Rattle.std.specs.Prelude.{◌≡◌};
ghost use Rattle.codec.specs.Layout.{read};
ghost use Rattle.codec.specs.Format.{decode};
ghost use Rattle.reg_cid.specs.Content.{content};
ghost use Rattle.reg_csd.specs.Csd.{csd, csd_values};
ghost use Rattle.reg_csd_decode.specs.Read.{csd_read};

use codec::{Refusal, field};
use reg_cid::content::{self, Words};
use reg_csd::Csd;

// The fields of two words of content.
fn fields(words: Words) -> Csd
    ensures { csd_values result ≡ read csd.slots (content words.first words.rest) }
{
    let Words { first, rest } = words;
    Csd {
        csd_structure: field(first, 62, 2) as u8,
        taac: field(first, 48, 8) as u8,
        nsac: field(first, 40, 8) as u8,
        tran_speed: field(first, 32, 8) as u8,
        ccc: field(first, 20, 12) as u16,
        read_bl_len: field(first, 16, 4) as u8,
        read_bl_partial: field(first, 15, 1) == 1,
        write_blk_misalign: field(first, 14, 1) == 1,
        read_blk_misalign: field(first, 13, 1) == 1,
        dsr_imp: field(first, 12, 1) == 1,
        c_size: (field(first, 0, 10) * 4 + field(rest, 54, 2)) as u16,
        vdd_r_curr_min: field(rest, 51, 3) as u8,
        vdd_r_curr_max: field(rest, 48, 3) as u8,
        vdd_w_curr_min: field(rest, 45, 3) as u8,
        vdd_w_curr_max: field(rest, 42, 3) as u8,
        c_size_mult: field(rest, 39, 3) as u8,
        erase_blk_en: field(rest, 38, 1) == 1,
        sector_size: field(rest, 31, 7) as u8,
        wp_grp_size: field(rest, 24, 7) as u8,
        wp_grp_enable: field(rest, 23, 1) == 1,
        r2w_factor: field(rest, 18, 3) as u8,
        write_bl_len: field(rest, 14, 4) as u8,
        write_bl_partial: field(rest, 13, 1) == 1,
        file_format_grp: field(rest, 7, 1) == 1,
        copy: field(rest, 6, 1) == 1,
        perm_write_protect: field(rest, 5, 1) == 1,
        tmp_write_protect: field(rest, 4, 1) == 1,
        file_format: field(rest, 2, 2) as u8,
    }
}

pub fn decode(s: &[u8]) -> Result<Csd, Refusal>
    ensures { csd_read result ≡ decode csd s.now }
{
    content::judge(s)?;
    Ok(fields(Words::from_bytes(s)))
}
