// The lines of a console that call the card with bytes of their own, or take a block.
use codec::front;
use replay_read::field_into;

// A block, of which the card judges the size, a frame with chip select low, or a take.
#[derive(Clone, Copy)]
pub enum Input<'a> {
    Blk(&'a [u8]),
    Low(&'a [u8]),
    Take,
}

// None for every other line, which the replay program reads, or cannot read either.
pub fn read<'a>(line: &[u8], bytes: &'a mut [u8]) -> Option<Input<'a>> {
    if let Some(digits) = line.strip_prefix(b"blk\t") {
        let n = field_into(digits, bytes)?;
        return Some(Input::Blk(front(bytes, n)));
    }
    if let Some(digits) = line.strip_prefix(b"low\t") {
        let n = field_into(digits, bytes)?;
        return Some(Input::Low(front(bytes, n)));
    }
    if line == b"take".as_slice() {
        return Some(Input::Take);
    }
    None
}
