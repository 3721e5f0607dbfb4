// Command frames, and the frame check that decoder and card share.
ghost use Rattle.std.specs.Prelude.{◌≡◌, not, ◌&&◌, ◌||◌, [], ◌∷◌, ◌%◌, eqb};
ghost use Rattle.codec.specs.Answer.{encoding};
ghost use Rattle.codec.specs.Format.{encode, decode};
ghost use Rattle.wire_frame.specs.Command.{command, command_read, frame_check, frame_check_by, refusal_of};

use codec::Refusal;

// The fields of a command frame.
#[derive(Clone, Copy, Debug, PartialEq, Eq)]
pub struct CommandFields {
    pub index: u8,
    pub argument: u32,
}

// What is wrong with a frame; the card treats the kinds differently.
#[derive(Clone, Copy, Debug, PartialEq, Eq)]
pub enum Fault {
    Size,
    // start or transmission bit
    Start,
    // check or end bit
    Check,
}

// A decoder refuses a size, or a wrong bit or check.
impl From<Fault> for Refusal {
    ghost from_gives = { λ fault refusal. refusal ≡ refusal_of fault };

    fn from(fault: Fault) -> Refusal {
        match fault {
            Fault::Size => Refusal::Size,
            Fault::Start | Fault::Check => Refusal::Wrong,
        }
    }
}

// Whether the last byte is right, or its check is passed over: with checks off, but for command 8, and behind a right end bit.
fn last_right(checks: bool, index: u8, last: u8, seal: u8) -> bool
    ensures { result ≡ (eqb last seal || (not checks && (not (eqb index 8) && eqb (last % 2) 1))) }
{
    last == seal || (!checks && index != 8 && last % 2 == 1)
}

// The frame check, with checks on or off.
pub fn check_by(checks: bool, s: &[u8]) -> Result<CommandFields, Fault>
    ensures { result ≡ frame_check_by checks s.now }
{
    if s.len() != 6 {
        return Err(Fault::Size);
    }
    if s[0] >> 6 != 1 {
        return Err(Fault::Start);
    }
    if !last_right(checks, s[0] & 0x3F, s[5], codec::seal(&s[0..5])) {
        return Err(Fault::Check);
    }
    Ok(CommandFields {
        index: s[0] & 0x3F,
        argument: codec::word32(&s[1..5]),
    })
}

pub fn check(s: &[u8]) -> Result<CommandFields, Fault>
    ensures { result ≡ frame_check s.now }
{
    check_by(true, s)
}

pub fn encode(index: u8, argument: u32, out: &mut [u8]) -> Result<usize, Refusal>
    ensures { encoding result out.new ≡ encode command (index ∷ argument ∷ []) out.old }
{
    crate::frame::encode(index < 64, true, 0x40 | (index & 0x3F), argument, out)
}

pub fn decode(s: &[u8]) -> Result<CommandFields, Refusal>
    ensures { command_read result ≡ decode command s.now }
{
    Ok(check(s)?)
}
