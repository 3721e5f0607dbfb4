// A message on the line: its response as a prefix of the output buffer.
#![tactic(auto)]

ghost use Rattle.std.specs.Prelude.{◌≡◌, ◌+◌, ◌%◌, ◌^◌, ◌≤◌, ◌∷◌, length};
ghost use Rattle.card.specs.Status.{at, shown};
ghost use Rattle.card.specs.Spi.{COM_CRC_ERROR};
ghost use Rattle.card.specs.Step.{answer};
ghost use Rattle.card_respond.specs.Sent.{behind, message_by, message, Sends, Shows, responded, on_line};

use card::Core;
use card::answer::Answer;
use card::done::Response;
use codec::Refusal;
use wire_response::status::short_status;
use wire_response::{encode_r1, encode_r2, encode_r3, encode_r6, encode_r7};

// What stands behind R1 in SPI mode.
#[derive(Clone, Copy, Debug, PartialEq, Eq)]
pub enum Behind {
    Nothing,
    // the second byte of R2
    Second(u8),
    // the OCR of R3, the four bytes of R7
    Word(u32),
}

#[derive(Clone, Copy)]
pub enum Message {
    Silence,
    // SD mode: the response of a command, with the index that R1 shows and the status of R1 and R6, which lacks COM_CRC_ERROR
    Sd {
        response: Response,
        index: u8,
        word: u32,
    },
    // SPI mode: R1, of seven bits, which lacks COM_CRC_ERROR
    Spi {
        r1: u8,
        behind: Behind,
    },
    // SPI mode: the R1 of an error, as it is sent
    Error(u8),
}

// The status with COM_CRC_ERROR as the line has it.
fn shown(crc: bool, word: u32) -> u32
    ensures { result ≡ shown crc word % 2 ^ 32 }
{
    if crc {
        word.wrapping_add(0x0080_0000)
    } else {
        word
    }
}

// The room is a clause of each of these: an array of 17 bytes would be cut out of the buffer and joined again for it.

// R6 shows the RCA of the record, R2 its registers. A voltage that 8 does not accept gets silence.
fn emit_sd(response: Response, index: u8, word: u32, c: Core, crc: bool, out: &mut [u8]) -> Answer
    requires { 17 ≤ length out.old }
    ensures { Shows crc (message_by c index word response) out.old out.new result }
{
    match response {
        Response::Nothing => Answer::Silence,
        Response::R1 => encode_r1(index & 63, shown(crc, word), out).into(),
        Response::R6 => encode_r6(c.bus.rca, short_status(shown(crc, word)), out).into(),
        Response::Cid => encode_r2(&reg_cid::cid::sixteen(c.settings.cid), out).into(),
        Response::Csd => encode_r2(&reg_csd::sixteen(c.csd), out).into(),
        Response::R3(ocr) => encode_r3(ocr, out).into(),
        Response::R7 { voltage, pattern } => {
            if voltage == 0 {
                Answer::Silence
            } else {
                encode_r7(voltage & 15, pattern, out).into()
            }
        }
    }
}

// R1 of SPI mode with COM_CRC_ERROR as the line has it.
fn shown_r1(crc: bool, r1: u8) -> u8
    ensures { result ≡ at COM_CRC_ERROR crc + r1 % 2 ^ 7 }
{
    if crc { r1 % 128 + 0x08 } else { r1 % 128 }
}

// R1, R2, R3 and R7 of SPI mode.
fn emit_spi(r1: u8, rest: Behind, out: &mut [u8]) -> Answer
    requires { 17 ≤ length out.old }
    ensures { Sends (r1 ∷ behind rest) out.old out.new result }
{
    out[0] = r1;
    match rest {
        Behind::Nothing => Answer::Sent(1),
        Behind::Second(byte) => {
            out[1] = byte;
            Answer::Sent(2)
        }
        Behind::Word(word) => {
            codec::put32(&mut out[1..5], word);
            Answer::Sent(5)
        }
    }
}

fn emit(m: Message, c: Core, crc: bool, out: &mut [u8]) -> Answer
    requires { 17 ≤ length out.old }
    ensures { Shows crc (message c m) out.old out.new result }
{
    match m {
        Message::Silence => Answer::Silence,
        Message::Sd {
            response,
            index,
            word,
        } => emit_sd(response, index, word, c, crc, out),
        Message::Spi { r1, behind } => emit_spi(shown_r1(crc, r1), behind, out),
        Message::Error(byte) => emit_spi(byte, Behind::Nothing, out),
    }
}

// Row 4 of the refusals, or the message.
pub fn respond(m: Message, c: Core, crc: bool, out: &mut [u8]) -> Answer
    ensures { responded (answer result) out.new ≡ on_line crc (message c m) out.old }
{
    if out.len() < 17 {
        return Answer::Refused(Refusal::Buffer);
    }
    emit(m, c, crc, out)
}
