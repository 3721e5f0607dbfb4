// What a frame comes to, before it is shown on the line.
use crate::Core;
use crate::command::Command;

// The response of a command.
#[derive(Clone, Copy)]
pub enum Response {
    Nothing,
    // R1 and R6 show the status, which the layer of the bus mode adds
    R1,
    R6,
    // a register of the record: in SD mode an R2, in SPI mode an R1, and the register is the block that follows
    Cid,
    Csd,
    R3(u32),
    // voltage 0 where it is not accepted, as the frame and the model have it
    R7 { voltage: u8, pattern: u8 },
}

// What a call does to memory and protection marks; applied in one place.
#[derive(Clone, Copy)]
pub enum Effect {
    Nothing,
    // the payload of a block goes to an address
    Store { address: u32 },
    // so many blocks from a number on are zeroed, but for the protected ones
    Sweep { first: u32, count: u32 },
    // the mark of a group is set or cleared
    Protect { group: u32, value: bool },
    // every block is zeroed, protected or not, and every mark cleared
    ForceErase,
}

// What a command that ran comes to. The kept bits of the record are those held before and the command's own.
#[derive(Clone, Copy)]
pub struct Done {
    pub core: Core,
    pub response: Response,
    pub effect: Effect,
}

// Whether the command that a frame asks for runs, and what it does then.
#[derive(Clone, Copy)]
pub enum Judged {
    // not allowed in this state, or not in the table
    NotAllowed { command: Command },
    // addressed to another RCA
    OtherCard { command: Command },
    Ran { command: Command, done: Done },
}

// What becomes of COM_CRC_ERROR.
#[derive(Clone, Copy)]
pub enum Flag {
    Keep,
    Set,
    Clear,
}
