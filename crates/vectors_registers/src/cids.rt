// CIDs, encoded and decoded.
use reg_cid::cid::{self, Cid};
use std::io;
use vectors_print::{Refused, encoded};

pub fn run(rt: &impl Print) -> io::Result<()> {
    for fields in [
        Cid::default(),
        Cid {
            mid: 0x1B,
            oid: 0x534D,
            pnm: 0x3030303030,
            prv: 0x62,
            psn: 0x12345678,
            mdt: 0x014,
        },
        Cid {
            pnm: 0x10000000000,
            ..Cid::default()
        },
        Cid {
            mdt: 0x1000,
            ..Cid::default()
        },
    ] {
        let mut out = [0u8; 17];
        let written = cid::encode(fields, &mut out);
        println!(rt; "CID {}", encoded(written, &out))?;
        match cid::decode(&out[..16]) {
            Ok(Cid { prv, psn, mdt, .. }) => {
                println!(rt; "  PRV {prv:02X} PSN {psn:08X} MDT {mdt:04X}")?
            }
            Err(refusal) => println!(rt; "{}", Refused(refusal))?,
        }
    }
    Ok(())
}
