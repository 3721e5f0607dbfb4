// The CSD of cards of several sizes, encoded, decoded and encoded again.
use reg_csd::Csd;
use std::io;
use vectors_print::{Refused, encoded};

// C_SIZE, C_SIZE_MULT, CCC and the two protection bits.
const CARDS: [(u16, u8, u16, bool, bool); 9] = [
    (15, 0, 0x175, false, false),
    (15, 0, 0x1F5, false, false),
    (15, 0, 0x1F5, true, false),
    (15, 0, 0x1F5, false, true),
    (0, 0, 0x1F5, false, false),
    (4095, 2, 0x1F5, false, false),
    (4095, 7, 0x1F5, false, false),
    (4096, 0, 0x1F5, false, false),
    (15, 8, 0x1F5, false, false),
];

// The fields that the card gives; the others are 0.
pub fn run(rt: &impl Print) -> io::Result<()> {
    for (c_size, c_size_mult, ccc, perm_write_protect, tmp_write_protect) in CARDS {
        let csd = Csd {
            taac: 0x26,
            tran_speed: 0x32,
            ccc,
            read_bl_len: 9,
            read_bl_partial: true,
            c_size,
            c_size_mult,
            erase_blk_en: true,
            sector_size: 31,
            wp_grp_enable: true,
            write_bl_len: 9,
            perm_write_protect,
            tmp_write_protect,
            ..Csd::default()
        };
        let mut out = [0u8; 17];
        let written = reg_csd::encode(csd, &mut out);
        println!(rt; "CSD {}", encoded(written, &out))?;
        match reg_csd_decode::decode(&out[..16]) {
            Ok(csd) => {
                let mut again = [0u8; 17];
                let written = reg_csd::encode(csd, &mut again);
                println!(rt; "  again {}", encoded(written, &again))?
            }
            Err(refusal) => println!(rt; "{}", Refused(refusal))?,
        }
    }
    Ok(())
}
