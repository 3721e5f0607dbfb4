// Data packets: a payload and its CRC16.
#![tactic(auto)]

ghost use Rattle.std.specs.Prelude.{◌≡◌};
ghost use Rattle.codec.specs.Answer.{encoding, part_read};
ghost use Rattle.wire_packet.specs.Packet.{encode_packet, decode_packet};

use codec::Refusal;

// The most bytes of a payload.
pub const PAYLOAD: usize = 512;

// The bytes of a check.
pub const CHECK: usize = 2;

#[tactic(auto, unfolding(crate::specs::Packet::encode_packet))]
pub fn encode(payload: &[u8], out: &mut [u8]) -> Result<usize, Refusal>
    ensures { encoding result out.new ≡ encode_packet payload.now out.old }
{
    let n = payload.len();
    if !(1..=PAYLOAD).contains(&n) {
        return Err(Refusal::Size);
    }
    if out.len() < PAYLOAD + CHECK {
        return Err(Refusal::Buffer);
    }
    codec::copy(&mut out[..n], payload);
    codec::put32(&mut out[n..n + CHECK], u32::from(crc::crc16(payload)));
    Ok(n + CHECK)
}

// The payload where it lies in the packet.
#[tactic(auto, unfolding(crate::specs::Packet::decode_packet))]
pub fn decode(p: &[u8]) -> Result<&[u8], Refusal>
    ensures { part_read result ≡ decode_packet p.now }
{
    if !(1 + CHECK..=PAYLOAD + CHECK).contains(&p.len()) {
        return Err(Refusal::Size);
    }
    let (payload, check) = p.split_at(p.len() - CHECK);
    if codec::word32(check) != u32::from(crc::crc16(payload)) {
        return Err(Refusal::Wrong);
    }
    Ok(payload)
}
