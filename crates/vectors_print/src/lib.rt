// What the programs of the standard's samples print: bytes and words in capital hex, and what an encoder or a decoder gave.
#![tactic(auto)]

use codec::Refusal;
use std::fmt;

// Bytes, two digits each.
#[derive(Clone, Copy, Debug)]
pub struct Hex<'a>(pub &'a [u8]);

impl fmt::Display for Hex<'_> {
    fn fmt<W: fmt::Write>(&self, f: &mut fmt::Formatter<W>) -> fmt::Result {
        for byte in self.0 {
            write!(f, "{byte:02X}")?;
        }
        Ok(())
    }
}

// A number of 32 bits, eight digits.
#[derive(Clone, Copy, Debug)]
pub struct Word(pub u32);

impl fmt::Display for Word {
    fn fmt<W: fmt::Write>(&self, f: &mut fmt::Formatter<W>) -> fmt::Result {
        write!(f, "{:08X}", self.0)
    }
}

// A refusal, by its number.
#[derive(Clone, Copy, Debug)]
pub struct Refused(pub Refusal);

impl fmt::Display for Refused {
    fn fmt<W: fmt::Write>(&self, f: &mut fmt::Formatter<W>) -> fmt::Result {
        write!(f, "refused {:02X}", u8::from(self.0))
    }
}

// What a call gave, or its refusal.
#[derive(Clone, Copy, Debug)]
pub struct Shown<T>(pub Result<T, Refusal>);

impl<T: fmt::Display> fmt::Display for Shown<T> {
    fn fmt<W: fmt::Write>(&self, f: &mut fmt::Formatter<W>) -> fmt::Result {
        match &self.0 {
            Ok(value) => write!(f, "{value}"),
            Err(refusal) => write!(f, "{}", Refused(*refusal)),
        }
    }
}

// The bytes that an encoder wrote, or its refusal; nothing where they are more than the buffer has.
pub fn encoded(written: Result<usize, Refusal>, out: &[u8]) -> Shown<Hex<'_>> {
    Shown(written.map(|n| Hex(out.get(..n).unwrap_or(&[]))))
}
