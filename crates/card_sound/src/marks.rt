// The protection marks behind the last group.
ghost use Rattle.std.specs.Prelude.{◌≡◌};
ghost use Rattle.card.specs.Soundness.{any_byte, marked_from};

// Some byte is not zero. It looks at all of them, many at once: with `any`, which stops at the first, a block takes a tenth longer.
fn any_byte(marks: &[u8]) -> bool
    ensures { result ≡ any_byte marks.now }
{
    let mut found = false;
    for byte in marks {
        found = found | (*byte != 0);
    }
    found
}

// A mark of a group or of one behind it.
pub(crate) fn marked_from(marks: &[u8], group: u64) -> bool
    ensures { result ≡ marked_from marks.now group }
{
    let at = (group / 8) as usize;
    if at >= marks.len() {
        return false;
    }
    marks[at] >> (group % 8) != 0 || any_byte(&marks[at + 1..])
}
