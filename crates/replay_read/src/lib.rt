// The replay program's lines of input: how they are collected, and what is read.
#![tactic(auto)]

ghost use Rattle.std.specs.Prelude.{◌≡◌, ◌<◌, ◌⊎◌, ◌*◌, [], ◌∷◌, take, length, IfOk, OnErr};
ghost use Rattle.std.specs.Io.{ReadsAtMost};
ghost use Rattle.std.specs.Io.KnownBytes.{Keeps, Consumes, IsAtEnd};
ghost use Rattle.replay_read.specs.Read.{read_line, held, field_read, front_read, in_front, front_left};
ghost use Rattle.replay_read.specs.Keep.{keep_byte, collected};

pub mod hex;

use hex::unhex;
use std::io::Read;

// What a line asks for: a frame, a block, to take one, or that busy is over.
#[derive(Clone, Copy)]
pub enum Input {
    Cmd([u8; 6]),
    Blk([u8; 514]),
    Take,
    Over,
}

// A field of so many bytes.
pub fn field<const N: usize>(digits: &[u8]) -> Option<[u8; N]>
    ensures { result ≡ field_read (2 * N) digits.now }
{
    let mut bytes = [0u8; N];
    unhex(digits, &mut bytes).then_some(bytes)
}

// A field of as many bytes as there is room for, in the front of the buffer, and how many; a buffer of no field stays as it was.
pub fn field_into(digits: &[u8], bytes: &mut [u8]) -> Option<usize>
    ensures field { in_front result bytes.new ≡ front_read (length bytes.old) digits.now }
    ensures buffer { bytes.new ≡ front_left digits.now bytes.old }
{
    let n = digits.len() / 2;
    if n > bytes.len() {
        return None;
    }
    let front = &mut bytes[..n];
    if !unhex(digits, front) {
        return None;
    }
    Some(n)
}

// A line without its newline; none where it cannot be read.
pub fn read(line: &[u8]) -> Option<Input>
    ensures { result ≡ held (read_line line.now) }
{
    if let Some(digits) = line.strip_prefix(b"cmd\t") {
        return Some(Input::Cmd(field(digits)?));
    }
    if let Some(digits) = line.strip_prefix(b"blk\t") {
        return Some(Input::Blk(field(digits)?));
    }
    if line == b"take".as_slice() {
        return Some(Input::Take);
    }
    if line == b"over".as_slice() {
        return Some(Input::Over);
    }
    None
}

// One byte more of a line that is being collected; a full buffer stays as it is.
pub fn keep(line: &mut [u8], count: usize, byte: u8) -> usize
    ensures { collected line.new result ≡ keep_byte (collected line.old count) byte }
{
    if count < line.len() {
        line[count] = byte;
        return count + 1;
    }
    count
}

// Fills a chunk by one read of what is there: how many bytes, 0 at the end. A last line of `count` bytes that has no newline
// gets one there. A read that fails takes nothing. Which bytes a file or standard input gives is not part of a contract.
pub fn fill<R: Read>(input: &mut R, chunk: &mut [u8], count: usize) -> std::io::Result<usize>
    ensures ok { ReadsAtMost result chunk.new }
    ensures bytes { IfOk result (λ n. Consumes (R.remaining input.old) (R.remaining input.new) (take n chunk.new)
        ⊎ (0 < count) × (take n chunk.new ≡ 10 ∷ []) × IsAtEnd (R.remaining input.new)) }
    ensures end { IfOk result (λ n. n ≡ 0 → 0 < length chunk.new → IsAtEnd (R.remaining input.new)) }
    ensures err { OnErr result (Keeps (R.remaining input.old) (R.remaining input.new)) }
{
    let n = input.read(chunk)?;
    if n > 0 {
        return Ok(n);
    }
    if count == 0 || chunk.is_empty() {
        return Ok(0);
    }
    chunk[0] = b'\n';
    Ok(1)
}
