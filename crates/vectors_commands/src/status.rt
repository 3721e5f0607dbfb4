// R1, the answer to most commands: encoded from index and card status, and decoded.
use std::io;
use vectors_print::{Hex, Shown, Word, encoded};

// Index and card status.
const SENT: [(u8, u32); 12] = [
    (0x37, 0x00800120),
    (0x37, 0x00400120),
    (0x37, 0x00000120),
    (0x07, 0x00000700),
    (0x0D, 0x00000900),
    (0x0D, 0x00000E00),
    (0x11, 0x80000900),
    (0x11, 0x40000900),
    (0x18, 0x04000900),
    (0x0C, 0x00000B00),
    (0x0C, 0x00000D00),
    (0x40, 0x00000000),
];

// The index that is awaited, and an R1 as it arrives.
const RECEIVED: [(u8, [u8; 6]); 5] = [
    (17, [0x11, 0, 0, 0x09, 0, 0x67]),
    (18, [0x11, 0, 0, 0x09, 0, 0x67]),
    (17, [0x11, 0, 0, 0x09, 0, 0x66]),
    (13, [0x0D, 0, 0, 0x0E, 0, 0x5D]),
    (81, [0x51, 0, 0, 0, 0, 0x55]),
];

pub fn run(rt: &impl Print) -> io::Result<()> {
    for (index, status) in SENT {
        let mut out = [0u8; 17];
        let written = wire_response::encode_r1(index, status, &mut out);
        let response = encoded(written, &out);
        println!(rt; "R1 {index:02X} {status:08X} {response}")?;
    }
    for (index, s) in RECEIVED {
        let status = Shown(wire_response_decode::decode_r1(index, &s).map(Word));
        println!(rt; "R1 {} {status}", Hex(&s))?;
    }
    Ok(())
}
