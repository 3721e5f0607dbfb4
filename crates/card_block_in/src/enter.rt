// A packet that came in: its check, and the open transfer that its payload goes into.
ghost use Rattle.std.specs.Prelude.{◌≡◌, [], false, not, ◌||◌, length};
ghost use Rattle.wire_packet.specs.Packet.{packet_right};
ghost use Rattle.card.specs.declared.Open.TheVariants.{Write};
ghost use Rattle.card.specs.Settings.{BLOCK};
ghost use Rattle.card.specs.State.{sink_address, sink_locks};
ghost use Rattle.card_call.specs.Seen.{returned};
ghost use Rattle.card_block_in.specs.Stores.{Stores, Decodes};
ghost use Rattle.card_block_in.specs.Enters.{Enters, payload_turned, packet_turned};

use crate::turn::write_into;
use card::answer::Answer;
use card::{Card, Open, Sink};
use card_call::Stepped;
use card_lock_in::lock_into;
use card_state::Transfer;
use wire_packet::CHECK;

// Whether its check is right, or not judged.
fn packet_right(checks: bool, p: &[u8]) -> bool
    requires { Decodes p.now }
    ensures { result ≡ (not checks || packet_right p.now) }
{
    !checks || wire_packet::decode(p).is_ok()
}

fn write_sink(sink: Sink, card: Card, right: bool, payload: &[u8], memory: &mut [u8]) -> Stepped
    requires { Stores card.core (sink_address sink) memory.old × (sink_locks sink ≡ false → length payload.now ≡ BLOCK) }
    ensures { returned result memory.new [] ≡ payload_turned card (Write sink) right payload.now memory.old }
{
    let t = match sink {
        Sink::LockUnlock => return lock_into(card, right, payload, memory),
        Sink::Single { address, held } => Transfer {
            multiple: false,
            address,
            held,
        },
        Sink::Multiple { address, held } => Transfer {
            multiple: true,
            address,
            held,
        },
    };
    write_into(card, right, payload, memory, t)
}

// No byte is moved but to its place in memory.
pub(crate) fn enter(card: Card, o: Open, checks: bool, packet: &[u8], memory: &mut [u8]) -> Stepped
    requires { Enters card.core o memory.old packet.now }
    ensures { returned result memory.new [] ≡ packet_turned card o checks packet.now memory.old }
{
    let right = packet_right(checks, packet);
    let payload = &packet[..packet.len() - CHECK];
    match o {
        Open::Write(sink) => write_sink(sink, card, right, payload, memory),
        // row 5 has refused the call
        Open::Nothing | Open::Read(_) | Open::Busy(_) => Stepped {
            answer: Answer::Silence,
            card,
        },
    }
}
