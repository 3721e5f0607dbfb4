// A reply of the card, held against the answer that a command expects, and what it tells of the card. Each step takes the decoded reply
// apart by let .. else, which is the form that was asked for, and not by `?`.
#![tactic(auto)]

ghost use Rattle.std.specs.Prelude.{◌≡◌};
ghost use Rattle.codec.specs.Answer.{outcome_of};
ghost use Rattle.codec.specs.Format.{decode};
ghost use Rattle.wire_response.specs.Response.{decode_r2, r6};
ghost use Rattle.host.specs.Reply.{judge};
ghost use Rattle.host_reply.specs.Read.{judged, heard, seen, address_in};

use codec::Refusal;
use host::{Found, Heard, Judgement, Kind, Reason};
use host_sequence::echoes;
use wire_response_decode::{
    Echo, Published, decode_r1, decode_r2, decode_r3, decode_r6, decode_r7,
};

#[tactic(auto, unfolding(host::specs::Reply::judge))]
fn silence(reply: &[u8]) -> Result<Judgement, Reason>
    ensures { judged result ≡ judge Kind.Silence 0 reply.now }
{
    if !reply.is_empty() {
        return Err(Reason::Heard);
    }
    Ok(Judgement::Expected)
}

// The status may show errors.
#[tactic(auto, unfolding(host::specs::Reply::judge))]
fn r1(index: u8, reply: &[u8]) -> Result<Judgement, Reason>
    ensures { judged result ≡ judge Kind.R1 index reply.now }
{
    let read = decode_r1(index, reply);
    let Ok(_) = read else {
        return Err(Reason::Refused(read.unwrap_err()));
    };
    Ok(Judgement::Expected)
}

// Bit 31 clear is busy, whatever the window.
#[tactic(auto, unfolding(host::specs::Reply::judge))]
fn r3(reply: &[u8]) -> Result<Judgement, Reason>
    ensures { judged result ≡ judge Kind.R3 0 reply.now }
{
    let read = decode_r3(reply);
    let Ok(ocr) = read else {
        return Err(Reason::Refused(read.unwrap_err()));
    };
    if ocr >> 31 == 0 {
        return Ok(Judgement::Busy);
    }
    Ok(Judgement::Expected)
}

// Voltage and pattern must be those that were sent.
#[tactic(auto, unfolding(host::specs::Reply::judge))]
fn r7(reply: &[u8]) -> Result<Judgement, Reason>
    ensures { judged result ≡ judge Kind.R7 0 reply.now }
{
    let read = decode_r7(reply);
    let Ok(Echo { voltage, pattern }) = read else {
        return Err(Reason::Refused(read.unwrap_err()));
    };
    if !echoes(voltage, pattern) {
        return Err(Reason::Echo);
    }
    Ok(Judgement::Expected)
}

// A register's sixteen bytes, its own check among them.
fn register(reply: &[u8]) -> Result<[u8; 16], Refusal>
    ensures { outcome_of (λ s. s) result ≡ decode_r2 reply.now }
{
    let read = decode_r2(reply);
    let Ok(bytes) = read else {
        return Err(read.unwrap_err());
    };
    let mut register = [0; 16];
    register.copy_from_slice(bytes);
    Ok(register)
}

// The card's address.
fn published(reply: &[u8]) -> Result<u16, Refusal>
    ensures { outcome_of (λ rca. rca) result ≡ address_in (decode r6 reply.now) }
{
    let read = decode_r6(reply);
    let Ok(Published { rca, .. }) = read else {
        return Err(read.unwrap_err());
    };
    Ok(rca)
}

// By the kind that is expected, to a command of this index. A reply that is refused tells nothing of the card.
#[tactic(auto, unfolding(host::specs::Reply::judge, host::specs::Reply::learn))]
pub fn hear(kind: Kind, index: u8, found: Found, reply: &[u8]) -> Result<Heard, Reason>
    ensures { seen found result ≡ heard kind index found reply.now }
{
    match kind {
        Kind::Silence => Ok(Heard {
            judgement: silence(reply)?,
            found,
        }),
        Kind::R1 => Ok(Heard {
            judgement: r1(index, reply)?,
            found,
        }),
        Kind::R3 => Ok(Heard {
            judgement: r3(reply)?,
            found,
        }),
        Kind::R6 => Ok(Heard {
            judgement: Judgement::Expected,
            found: Found {
                rca: published(reply)?,
                ..found
            },
        }),
        Kind::R7 => Ok(Heard {
            judgement: r7(reply)?,
            found,
        }),
        Kind::Cid => Ok(Heard {
            judgement: Judgement::Expected,
            found: Found {
                cid: register(reply)?,
                ..found
            },
        }),
        Kind::Csd => Ok(Heard {
            judgement: Judgement::Expected,
            found: Found {
                csd: register(reply)?,
                ..found
            },
        }),
    }
}
