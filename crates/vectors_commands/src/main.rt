// Vectors of the command frames: encoded from index and argument, decoded back, and frames that are refused; then R1.
#![tactic(auto)]

mod status;

use std::{fmt, io};
use vectors_print::{Hex, Shown, encoded};
use wire_frame::command::{self, CommandFields, Fault};

// Index and argument of a command that was decoded.
#[derive(Clone, Copy, Debug)]
struct Fields(CommandFields);

impl fmt::Display for Fields {
    fn fmt<W: fmt::Write>(&self, f: &mut fmt::Formatter<W>) -> fmt::Result {
        write!(f, "{:02X} {:08X}", self.0.index, self.0.argument)
    }
}

// Index and argument.
const COMMANDS: [(u8, u32); 41] = [
    (0x00, 0),
    (0x02, 0),
    (0x03, 0),
    (0x07, 0x00010000),
    (0x07, 0),
    (0x08, 0x000001AA),
    (0x09, 0x00010000),
    (0x0A, 0x00010000),
    (0x0B, 0),
    (0x0C, 0),
    (0x0D, 0x00010000),
    (0x0D, 0),
    (0x0F, 0x00010000),
    (0x10, 0x00000200),
    (0x10, 0x000001FF),
    (0x11, 0),
    (0x11, 0x00000001),
    (0x11, 0x00007E00),
    (0x11, 0x00008000),
    (0x12, 0),
    (0x13, 0),
    (0x18, 0),
    (0x19, 0),
    (0x1C, 0),
    (0x1D, 0),
    (0x1E, 0),
    (0x1E, 0x00004000),
    (0x20, 0),
    (0x21, 0x00000200),
    (0x26, 0),
    (0x29, 0),
    (0x29, 0x00FF8000),
    (0x29, 0x40FF8000),
    (0x2A, 0),
    (0x33, 0),
    (0x16, 0),
    (0x17, 0),
    (0x37, 0),
    (0x37, 0x00010000),
    (0x3F, 0xFFFFFFFF),
    (0x40, 0),
];

fn commands(rt: &impl Print) -> io::Result<()> {
    for (index, argument) in COMMANDS {
        let mut out = [0u8; 17];
        let written = command::encode(index, argument, &mut out);
        let frame = encoded(written, &out);
        println!(rt; "command {index:02X} {argument:08X} {frame}")?;
        println!(rt;
            "  decoded {}",
            Shown(command::decode(&out[..6]).map(Fields))
        )?;
    }
    Ok(())
}

// Frames as they arrive.
const FRAMES: [&[u8]; 7] = [
    &[0x40, 0, 0, 0, 0, 0x95],
    &[0x40, 0, 0, 0, 0, 0x94],
    &[0x69, 0, 0, 0, 0, 0],
    &[0xC0, 0, 0, 0, 0, 0x95],
    &[0x11, 0, 0, 0x09, 0, 0x67],
    &[0x40, 0, 0, 0, 0],
    b"",
];

// What the frame check and the decoder say.
fn frames(rt: &impl Print) -> io::Result<()> {
    for frame in FRAMES {
        let checked = match command::check(frame) {
            Ok(_) => "good",
            Err(Fault::Size) => "size",
            Err(Fault::Start) => "start or transmission",
            Err(Fault::Check) => "check or end",
        };
        let decoded = Shown(command::decode(frame).map(Fields));
        println!(rt; "frame {} {checked} {decoded}", Hex(frame))?;
    }
    Ok(())
}

fn all(rt: &impl Print) -> io::Result<()> {
    commands(rt)?;
    frames(rt)?;
    status::run(rt)
}

// A line that cannot be written ends the run, and is no error.
fn main(rt: HostRuntime) {
    let _ = all(&rt);
}
