// The proved functions that are measured, exported for a Rust program to link.
#![tactic(auto)]

ghost use Rattle.std.specs.Prelude.{◌≡◌};
ghost use Rattle.crc.specs.Crc.{crc16_of};

#[unsafe(no_mangle)]
pub extern "C" fn proved_crc16(s: &[u8]) -> u16
    ensures { result ≡ crc16_of s.now }
{
    crc::crc16(s)
}
