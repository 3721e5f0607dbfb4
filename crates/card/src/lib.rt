// The card's types: here the record, with the settings and the states that it holds. What the calls do with them is in specs/; the only
// code is three conversions. Every check above spells these names out many times over, so they stand in no module, and nothing derives what no code
// uses: each crate above would check it.
#![tactic(auto)]

ghost use Rattle.std.specs.Prelude.{◌≡◌, ◌≤◌};
ghost use Rattle.card.specs.State.{number};

pub mod answer;
pub mod command;
pub mod done;
pub mod lock;
pub mod size;

use reg_cid::cid::Cid;
use reg_csd::Csd;

// The settings of a power-up.
#[derive(Clone, Copy, Default)]
pub struct Settings {
    // block count
    pub blocks: u32,
    // start polls of A41
    pub polls: u8,
    pub cid: Cid,
    // permanent and temporary protection of the whole card
    pub permanent: bool,
    pub temporary: bool,
}

// What a read transfer hands out. A held one is silent until it is ended.
#[derive(Clone, Copy)]
pub enum Source {
    // commands 17 and 18, from memory
    Blocks {
        multiple: bool,
        address: u32,
        held: bool,
    },
    // command 30: the protection marks from the group of an address on
    WriteProtect {
        address: u32,
    },
    // A13, A22, A51
    SdStatus,
    WrittenBlocks,
    Scr,
    // 9 and 10 in SPI mode: a register
    Csd,
    Cid,
}

// What a write transfer takes in: the block of 24, the blocks of 25, the block of 42. A held one is silent until it is ended.
#[derive(Clone, Copy)]
pub enum Sink {
    Single { address: u32, held: bool },
    Multiple { address: u32, held: bool },
    LockUnlock,
}

// The bus state, with the transfer that it stands for.
#[derive(Clone, Copy)]
pub enum State {
    Idle,
    Ready,
    Ident,
    Stby,
    Tran,
    Data(Source),
    Rcv(Sink),
    Prg,
    Dis,
    Ina,
}

// Its number: bits 12..9 of the status.
impl From<State> for u8 {
    ghost from_gives = { λ state n. (n ≡ number state) × (n ≤ 9) };

    fn from(state: State) -> u8 {
        match state {
            State::Idle => 0,
            State::Ready => 1,
            State::Ident => 2,
            State::Stby => 3,
            State::Tran => 4,
            State::Data(_) => 5,
            State::Rcv(_) => 6,
            State::Prg => 7,
            State::Dis => 8,
            State::Ina => 9,
        }
    }
}

// What a state has open. With its number, this answers every question that is asked of a state.
#[derive(Clone, Copy)]
pub enum Open {
    Nothing,
    Read(Source),
    Write(Sink),
    // busy, and the state behind it
    Busy(State),
}

// The bus mode. In SPI mode the checks of frames and blocks are on or off.
#[derive(Clone, Copy)]
pub enum Mode {
    Sd,
    Spi { checks: bool },
}

// In SPI mode no bus state is observed. What counts of it there: idle; data and rcv, a transfer is open; prg and dis, busy; every
// other state is none of these.
#[derive(Clone, Copy)]
pub struct Bus {
    pub mode: Mode,
    pub state: State,
    // the card's address, and the last one that it published
    pub rca: u16,
    pub published: u16,
    // A41 polls left
    pub polls: u8,
    // the application mark: the command before was 55
    pub app: bool,
}

// The addresses that 32 and 33 gave.
#[derive(Clone, Copy)]
pub struct EraseMarks {
    pub first: Option<u32>,
    pub second: Option<u32>,
}

// The status bits that the card keeps, but COM_CRC_ERROR.
#[derive(Clone, Copy, Default)]
pub struct Kept {
    pub out_of_range: bool,
    pub address_error: bool,
    pub block_len_error: bool,
    pub erase_seq_error: bool,
    pub erase_param: bool,
    pub wp_violation: bool,
    pub lock_unlock_failed: bool,
    pub illegal_command: bool,
    pub wp_erase_skip: bool,
    pub erase_reset: bool,
}

// All that a command can read or change.
#[derive(Clone, Copy)]
pub struct Core {
    pub settings: Settings,
    pub csd: Csd,
    pub bus: Bus,
    pub kept: Kept,
    pub erase: EraseMarks,
    // block length, set by 16
    pub length: u16,
    // blocks stored since a write command last reached rcv, for A22
    pub written: u32,
    // a locked card accepts few commands, none of which touches memory
    pub locked: bool,
    // a bit for each protection group, eight to a byte, the lowest first
    pub marks: [u8; 256],
}

// The password, none where the length is 0. Bytes and a length by value, as the forms ask; a length over 16 is a value that rows 2 and 6
// refuse. It stands beside the core: no command looks at it, and a block of 42 hands the core
// nothing but whether its operation succeeds.
#[derive(Clone, Copy)]
pub struct Password {
    pub bytes: [u8; 16],
    pub length: u8,
}

// What the line alone knows: no command looks at it.
#[derive(Clone, Copy)]
pub struct Line {
    pub com_crc_error: bool,
}

// What the card keeps between calls, a struct by value.
#[derive(Clone, Copy)]
pub struct Card {
    pub core: Core,
    pub password: Password,
    pub line: Line,
}
