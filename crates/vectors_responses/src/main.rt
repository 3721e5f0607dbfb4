// Vectors of the responses other than R1: encoded from their fields, and decoded.
#![tactic(auto)]

use std::io;
use vectors_print::{Hex, Refused, Shown, Word, encoded};
use wire_response::status;
use wire_response_decode::{Echo, Published};

// An R2 with a wrong check, and one that is a byte short.
const WRONG_R2S: [&[u8]; 2] = [
    &[0x3F, 0, 0, 0, 0, 0, 0, 0, 0, 0, 0, 0, 0, 0, 0, 0, 0],
    &[0x3F, 0, 0, 0, 0, 0, 0, 0, 0, 0, 0, 0, 0, 0, 0, 0],
];

// The content of the register, without its check, and the number of the refusal.
fn r2_decoded(rt: &impl Print, s: &[u8]) -> io::Result<()> {
    match wire_response_decode::decode_r2(s) {
        Ok(register) => println!(rt; "R2 {} {} 00", Hex(s), Hex(codec::front(register, 15))),
        Err(refusal) => println!(rt; "R2 {}  {:02X}", Hex(s), u8::from(refusal)),
    }
}

fn r2(rt: &impl Print) -> io::Result<()> {
    let mut out = [0u8; 17];
    let register = [0, 0, 0, 0, 0, 0, 0, 0, 0, 0, 0, 0, 0, 0, 0, 0x01];
    let written = wire_response::encode_r2(&register, &mut out);
    println!(rt; "R2 {}", encoded(written, &out))?;
    r2_decoded(rt, &out)?;
    for s in WRONG_R2S {
        r2_decoded(rt, s)?;
    }
    Ok(())
}

fn r3(rt: &impl Print) -> io::Result<()> {
    for ocr in [0x00FF8000, 0x80FF8000, 0xC0FF8000] {
        let mut out = [0u8; 17];
        let written = wire_response::encode_r3(ocr, &mut out);
        println!(rt; "R3 {}", encoded(written, &out))?;
    }
    for s in [
        [0x3F, 0x80, 0xFF, 0x80, 0, 0xFF],
        [0x3F, 0x80, 0xFF, 0x80, 0, 0x7F],
    ] {
        let ocr = wire_response_decode::decode_r3(&s).map(Word);
        println!(rt; "R3 {} {}", Hex(&s), Shown(ocr))?;
    }
    Ok(())
}

fn r6(rt: &impl Print) -> io::Result<()> {
    for (rca, card_status) in [(1, 0x00000500), (0xFFFF, 0xFFFFFFFF)] {
        let mut out = [0u8; 17];
        let written = wire_response::encode_r6(rca, status::short_status(card_status), &mut out);
        println!(rt; "R6 {}", encoded(written, &out))?;
        match wire_response_decode::decode_r6(&out[..6]) {
            Ok(Published { rca, status }) => println!(rt; "  decoded {rca:04X} {status:04X}")?,
            Err(refusal) => println!(rt; "  decoded {}", Refused(refusal))?,
        }
    }
    Ok(())
}

fn r7(rt: &impl Print) -> io::Result<()> {
    for (voltage, pattern) in [(1, 0xAA), (16, 0)] {
        let mut out = [0u8; 17];
        let written = wire_response::encode_r7(voltage, pattern, &mut out);
        println!(rt; "R7 {}", encoded(written, &out))?;
    }
    for s in [
        [0x08, 0, 0, 0x01, 0xAA, 0x13],
        [0x08, 0xFF, 0, 0x01, 0xAA, 0x13],
    ] {
        print!(rt; "R7 {} ", Hex(&s))?;
        match wire_response_decode::decode_r7(&s) {
            Ok(Echo { voltage, pattern }) => println!(rt; "{voltage:02X} {pattern:02X}")?,
            Err(refusal) => println!(rt; "{}", Refused(refusal))?,
        }
    }
    Ok(())
}

fn all(rt: &impl Print) -> io::Result<()> {
    r2(rt)?;
    r3(rt)?;
    r6(rt)?;
    r7(rt)
}

// A line that cannot be written ends the run, and is no error.
fn main(rt: HostRuntime) {
    let _ = all(&rt);
}
