// The two checks of the wire: CRC7 of command frames, responses and registers, CRC16 of data packets.
// Both keep the register at the top of its word, so that a whole byte enters at once.
#![tactic(auto)]

ghost use Rattle.std.specs.Prelude.{◌≡◌, false, [], ◌∷◌, ◌++◌};
ghost use Rattle.crc.specs.Bits.{bits};
ghost use Rattle.crc.specs.Crc.{poly7, shift, turns, crc7_of, crc16_of};

mod table16;

// x^7 + x^3 + 1, with the register one place up
const POLY7: u8 = 0x12;

// One turn of the register.
fn shift7(r: u8) -> u8
    ensures { bits 8 result ≡ shift (poly7 ++ (false ∷ [])) (bits 8 r) }
{
    if r & 0x80 != 0 {
        (r << 1) ^ POLY7
    } else {
        r << 1
    }
}

// Eight turns: a byte that has entered is worked in.
fn turn7(r: u8) -> u8
    ensures { bits 8 result ≡ turns (poly7 ++ (false ∷ [])) 8 (bits 8 r) }
{
    let mut q = r;
    for _ in 0..8u8 {
        q = shift7(q);
    }
    q
}

// The CRC7 of bytes.
pub fn crc7(s: &[u8]) -> u8
    ensures { result ≡ crc7_of s.now }
{
    let mut r: u8 = 0;
    for byte in s {
        r = turn7(r ^ *byte);
    }
    r >> 1
}

// The CRC16 of bytes.
pub fn crc16(s: &[u8]) -> u16
    ensures { result ≡ crc16_of s.now }
{
    // in a local: named in the loop, it would be built for every byte
    let t = table16::table();
    let mut r: u16 = 0;
    for byte in s {
        r = table16::turn(&t, r ^ (u16::from(*byte) << 8));
    }
    r
}
