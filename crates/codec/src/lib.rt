// What the encoders and decoders share: why a call is refused, and words of bits built and taken apart by shifts and masks.
#![tactic(auto)]

ghost use Rattle.std.specs.Prelude.{◌≡◌, [], ◌∷◌, ◌++◌, true, cond, ltb, ◌*◌, ◌/◌, ◌%◌, ◌^◌, length, take, drop};
ghost use Rattle.crc.specs.Bits.{bits, number, bits_of, bytes};
ghost use Rattle.crc.specs.Crc.{crc, poly7};
ghost use Rattle.codec.specs.Answer.{row_of};
ghost use Rattle.codec.specs.Word.{joined};

mod other_number;

pub use other_number::OtherNumber;

// Why a call is refused: the table of refused calls, row by row.
#[derive(Clone, Copy, Debug, PartialEq, Eq)]
pub enum Refusal {
    Size,
    Record,
    Memory,
    Buffer,
    Closed,
    Setting,
    // a wrong bit, index or check
    Wrong,
    // a field too wide
    Field,
    // a number that no row has
    Other(OtherNumber),
}

// The number of its row.
impl From<Refusal> for u8 {
    ghost from_gives = { λ refusal number. number ≡ row_of refusal };

    fn from(refusal: Refusal) -> u8 {
        match refusal {
            Refusal::Size => 1,
            Refusal::Record => 2,
            Refusal::Memory => 3,
            Refusal::Buffer => 4,
            Refusal::Closed => 5,
            Refusal::Setting => 6,
            Refusal::Wrong => 7,
            Refusal::Field => 8,
            Refusal::Other(other) => other.number,
        }
    }
}

// The refusal of a number, whichever it is.
impl From<u8> for Refusal {
    ghost from_gives = { λ number refusal. row_of refusal ≡ number };

    fn from(number: u8) -> Refusal {
        match number {
            1 => Refusal::Size,
            2 => Refusal::Record,
            3 => Refusal::Memory,
            4 => Refusal::Buffer,
            5 => Refusal::Closed,
            6 => Refusal::Setting,
            7 => Refusal::Wrong,
            8 => Refusal::Field,
            _ => Refusal::Other(OtherNumber { number }),
        }
    }
}

// Rows 4 and 8: whether an encoder may write. Its buffer has room for the longest answer, an R2 of 17 bytes, and each field fits.
pub fn writable(fits: bool, room: usize) -> Result<(), Refusal>
    ensures { result ≡ cond (ltb room 17) (Err Refusal.Buffer) (cond fits (Ok tt) (Err Refusal.Field)) }
{
    if room < 17 {
        return Err(Refusal::Buffer);
    }
    if !fits {
        return Err(Refusal::Field);
    }
    Ok(())
}

// `width` more bits behind those of `high`.
pub fn join(high: u64, width: u32, low: u64) -> u64
    ensures { result ≡ joined 64 high width low }
{
    if width >= 64 {
        return low;
    }
    (high << width) | (low & ((1u64 << width) - 1))
}

// The same of a word of 32 bits.
pub fn join32(high: u32, width: u32, low: u32) -> u32
    ensures { result ≡ joined 32 high width low }
{
    if width >= 32 {
        return low;
    }
    (high << width) | (low & ((1u32 << width) - 1))
}

// The `width` bits of a word that end at bit `low`.
pub fn field(word: u64, low: u32, width: u32) -> u64
    ensures { result ≡ word / 2 ^ low % 2 ^ width }
{
    if low >= 64 {
        return 0;
    }
    if width >= 64 {
        return word >> low;
    }
    (word >> low) & ((1u64 << width) - 1)
}

// The same of a word of 32 bits.
pub fn field32(word: u32, low: u32, width: u32) -> u32
    ensures { result ≡ word / 2 ^ low % 2 ^ width }
{
    if low >= 32 {
        return 0;
    }
    if width >= 32 {
        return word >> low;
    }
    (word >> low) & ((1u32 << width) - 1)
}

// The number of up to eight bytes, high byte first; of more, the last eight count.
pub fn word(s: &[u8]) -> u64
    ensures { result ≡ number (bits_of s.now) % 2 ^ 64 }
{
    let mut r: u64 = 0;
    for byte in s {
        r = (r << 8) | u64::from(*byte);
    }
    r
}

// The number of up to four bytes; of more, the last four count. A word of 32 bits is read with shifts and masks on u32, the form that
// was asked for.
pub fn word32(s: &[u8]) -> u32
    ensures { result ≡ number (bits_of s.now) % 2 ^ 32 }
{
    let mut r: u32 = 0;
    for byte in s {
        r = (r << 8) | u32::from(*byte);
    }
    r
}

// Fills a buffer with the low bytes of a word, high byte first.
pub fn put(out: &mut [u8], value: u64)
    ensures { out.new ≡ bytes (length out.old) (bits (8 * length out.old) value) }
{
    let mut v: u64 = value;
    // By index: a proof knows nothing of what is written through `iter_mut().rev()`.
    for i in (0..out.len()).rev() {
        out[i] = (v & 0xFF) as u8;
        v = v >> 8;
    }
}

// The same of a word of 32 bits, with shifts and masks on u32, the form that was asked for.
pub fn put32(out: &mut [u8], value: u32)
    ensures { out.new ≡ bytes (length out.old) (bits (8 * length out.old) value) }
{
    let mut v: u32 = value;
    // By index, as in `put`.
    for i in (0..out.len()).rev() {
        out[i] = (v & 0xFF) as u8;
        v = v >> 8;
    }
}

// The first `n` bytes, or all where there are fewer.
pub fn front(s: &[u8], n: usize) -> &[u8]
    ensures { result.now ≡ take n s.now }
{
    &s[..n.min(s.len())]
}

// What is behind the first `n` bytes.
pub fn behind(s: &[u8], n: usize) -> &[u8]
    ensures { result.now ≡ drop n s.now }
{
    &s[n.min(s.len())..]
}

// Copies as many bytes as both have room for, from the front. By index: the library's copy is a `memmove`, which an archive for C would
// ask its user for.
pub fn copy(out: &mut [u8], s: &[u8])
    ensures { out.new ≡ take (length out.old) s.now ++ drop (length s.now) out.old }
{
    let n = out.len().min(s.len());
    for i in 0..n {
        out[i] = s[i];
    }
}

// The byte of check and end bit behind bytes: CRC7, then a one.
pub fn seal(s: &[u8]) -> u8
    ensures { bits 8 result ≡ crc poly7 (bits_of s.now) ++ (true ∷ []) }
{
    (crc::crc7(s) << 1) | 1
}
