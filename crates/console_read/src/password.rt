// The password of a power-up, as its line has it.
use card::Password;
use replay_read::field;

// What follows the settings: the length in 2 digits and the 16 bytes in 32, a tab before each. The card judges the length.
pub fn password(fields: &[u8]) -> Option<Password> {
    if fields.len() != 36 || fields[0] != b'\t' || fields[3] != b'\t' {
        return None;
    }
    let [length] = field::<1>(&fields[1..3])?;
    let bytes = field(&fields[4..])?;
    Some(Password { bytes, length })
}
