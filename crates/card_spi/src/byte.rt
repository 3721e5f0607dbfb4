// The bytes of R1 and R2 in SPI mode, and the status bits that they clear.
ghost use Rattle.std.specs.Prelude.{◌≡◌, true, ◌+◌, ◌*◌, ◌≤◌, ◌<◌};
ghost use Rattle.crc.specs.Bits.{digit};
ghost use Rattle.card.specs.Status.{at};
ghost use Rattle.card.specs.Spi.{r1_byte, r2_byte, unread};
ghost use Rattle.card.specs.Spi as Spi;

use card::Kept;
use card_status::no_bits;

// The bits of R1.
const PARAMETER_ERROR: u8 = 0x40;

const ADDRESS_ERROR: u8 = 0x20;

const ERASE_SEQUENCE_ERROR: u8 = 0x10;

const COM_CRC_ERROR: u8 = 0x08;

const ILLEGAL_COMMAND: u8 = 0x04;

const ERASE_RESET: u8 = 0x02;

const IN_IDLE_STATE: u8 = 0x01;

// By its weight; in `card_status::word` a bit goes by its place in a wider word.
fn bit(value: bool, weight: u8) -> u8
    ensures { (result ≡ digit value * weight) × (result ≤ weight) }
{
    u8::from(value) * weight
}

// R1 without COM_CRC_ERROR, which the line adds.
#[tactic(auto, unfolding(card::specs::Spi::r1_byte))]
pub fn r1_byte(kept: Kept, idle: bool) -> u8
    ensures { (result ≡ r1_byte kept idle) × (result < 128) }
{
    bit(kept.out_of_range | kept.block_len_error, PARAMETER_ERROR)
        + bit(kept.address_error, ADDRESS_ERROR)
        + bit(kept.erase_seq_error, ERASE_SEQUENCE_ERROR)
        + bit(kept.illegal_command, ILLEGAL_COMMAND)
        + bit(kept.erase_reset, ERASE_RESET)
        + bit(idle, IN_IDLE_STATE)
}

// The second byte of R2.
#[tactic(auto, unfolding(card::specs::Spi::r2_byte))]
pub fn r2_byte(kept: Kept, locked: bool) -> u8
    ensures { result ≡ r2_byte kept locked }
{
    bit(kept.out_of_range, 0x80)
        + bit(kept.erase_param, 0x40)
        + bit(kept.wp_violation, 0x20)
        + bit(kept.wp_erase_skip | kept.lock_unlock_failed, 0x02)
        + bit(locked, 0x01)
}

// R1 of a frame that is damaged, and of one that is not allowed: that error's bit and the idle bit alone.
pub fn crc_error(idle: bool) -> u8
    ensures { result ≡ at Spi.COM_CRC_ERROR true + at Spi.IN_IDLE_STATE idle }
{
    COM_CRC_ERROR + bit(idle, IN_IDLE_STATE)
}

pub fn not_allowed(idle: bool) -> u8
    ensures { result ≡ at Spi.ILLEGAL_COMMAND true + at Spi.IN_IDLE_STATE idle }
{
    ILLEGAL_COMMAND + bit(idle, IN_IDLE_STATE)
}

// What R1 does not carry stays; R2 carries every bit that is kept.
#[tactic(auto, unfolding(card::specs::Spi::unread))]
pub fn unread(r2: bool, kept: Kept) -> Kept
    ensures { result ≡ unread r2 kept }
{
    if r2 {
        return no_bits();
    }
    Kept {
        out_of_range: false,
        address_error: false,
        block_len_error: false,
        erase_seq_error: false,
        illegal_command: false,
        erase_reset: false,
        ..kept
    }
}
