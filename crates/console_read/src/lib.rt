// The settings of a power-up, as its line has them.
#![tactic(auto)]

pub mod call;
pub mod password;

use card::Settings;
use codec::word32;
use reg_cid::content::Words;
use replay_read::field;

// The CID is that of the fifteen bytes before its check byte, reserved bits ignored. Flags: bit 0 permanent, bit 1 temporary
// protection, and no other.
fn settings_of(blocks: u32, polls: u8, content: [u8; 15], flags: u8) -> Option<Settings> {
    if flags > 3 {
        return None;
    }
    Some(Settings {
        blocks,
        polls,
        cid: reg_cid::cid::fields(Words::from_bytes(&content)),
        permanent: flags & 1 == 1,
        temporary: flags & 2 == 2,
    })
}

// The digits of the settings and the tabs between them.
pub const SETTINGS: usize = 45;

// What follows the word of a power-up: block count, start polls, CID and flags, in 8, 2, 30 and 2 digits parted by tabs.
pub fn settings(fields: &[u8]) -> Option<Settings> {
    if fields.len() != SETTINGS
        || fields[8] != b'\t'
        || fields[11] != b'\t'
        || fields[42] != b'\t'
    {
        return None;
    }
    let blocks = field::<4>(&fields[..8])?;
    let [polls] = field::<1>(&fields[9..11])?;
    let content = field(&fields[12..42])?;
    let [flags] = field::<1>(&fields[43..])?;
    settings_of(word32(&blocks), polls, content, flags)
}
