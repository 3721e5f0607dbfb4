// The two checks by themselves.
use std::io;
use vectors_print::Hex;

// CRC7 of heads of frames.
const HEADS: [&[u8]; 4] = [
    &[0x40, 0, 0, 0, 0],
    &[0x51, 0, 0, 0, 0],
    &[0x11, 0, 0, 0x09, 0],
    b"",
];

pub fn run(rt: &impl Print) -> io::Result<()> {
    for head in HEADS {
        println!(rt; "crc7 {} {:02X}", Hex(head), crc::crc7(head))?;
    }
    for (name, s) in [("empty", &b""[..]), ("123456789", b"123456789")] {
        println!(rt; "crc16 {name} {:04X}", crc::crc16(s))?;
    }
    for byte in [0xFF, 0, 0xAA, 0x55] {
        let check = crc::crc16(&[byte; 512]);
        println!(rt; "crc16 512 x {byte:02X} {check:04X}")?;
    }
    Ok(())
}
