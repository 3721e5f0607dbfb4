// A line of the card, as the answer to a command.
ghost use Rattle.std.specs.Prelude.{◌≡◌, length};
ghost use Rattle.replay_read.specs.Read.{in_front};
ghost use Rattle.bring_up_line.specs.Answer.{said, read_answer};

use replay_read::field_into;

// A line without its newline: how many bytes the answer has, which are in the front of the buffer then, and none where the card is
// silent. No answer is longer than the buffer.
pub fn read(line: &[u8], bytes: &mut [u8]) -> Option<usize>
    ensures { said (in_front result bytes.new) ≡ read_answer (length bytes.old) line.now }
{
    if line == b"none".as_slice() {
        return Some(0);
    }
    let digits = line.strip_prefix(b"rsp\t")?;
    if digits.is_empty() {
        return None;
    }
    field_into(digits, bytes)
}
