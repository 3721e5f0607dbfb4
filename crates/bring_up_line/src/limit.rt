// The limit of polls, as a text.
ghost use Rattle.std.specs.Prelude.{◌≡◌};
ghost use Rattle.bring_up_line.specs.Limit.{read_limit};

// A decimal number up to 1,000; 0 for any other text, which the start refuses as it does every number out of range. The
// library's `parse` would take a sign.
pub fn read(text: &[u8]) -> u16
    ensures { result ≡ read_limit text.now }
{
    let mut value: u16 = 0;
    for digit in text {
        if !digit.is_ascii_digit() {
            return 0;
        }
        value = value * 10 + u16::from(*digit - b'0');
        if value > 1000 {
            return 0;
        }
    }
    value
}
