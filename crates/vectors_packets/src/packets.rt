// Data packets: encoded from a payload, and decoded.
use std::io;
use vectors_print::{Hex, encoded};

const PAYLOADS: [&[u8]; 10] = [
    &[0x02, 0x01, 0, 0, 0, 0, 0, 0],
    &[0x02, 0x05, 0, 0, 0, 0, 0, 0],
    &[0; 64],
    &[0, 0, 0, 0],
    &[0, 0, 0, 1],
    &[0, 0, 0, 2],
    &[0, 0, 0, 3],
    &[0x08],
    b"",
    &[0; 513],
];

const PACKETS: [&[u8]; 4] = [
    &[0, 0, 0, 1, 0x10, 0x21],
    &[0, 0, 0, 1, 0x10, 0x20],
    &[0x08, 0x81, 0x08],
    &[0x81, 0x08],
];

pub fn run(rt: &impl Print) -> io::Result<()> {
    for payload in PAYLOADS {
        let mut out = [0u8; wire_packet::PAYLOAD + wire_packet::CHECK];
        let written = wire_packet::encode(payload, &mut out);
        println!(rt; "packet {}", encoded(written, &out))?;
    }
    // the payload, and the number of the refusal
    for packet in PACKETS {
        match wire_packet::decode(packet) {
            Ok(payload) => println!(rt; "packet {} {} 00", Hex(packet), Hex(payload))?,
            Err(refusal) => println!(rt; "packet {}  {:02X}", Hex(packet), u8::from(refusal))?,
        }
    }
    Ok(())
}
