// The host's two calls. The record by value and back; each step is fed the card's answer to the frame before, and writes the next
// frame into a lent buffer.
#![tactic(auto)]

ghost use Rattle.std.specs.Prelude.{◌≡◌};
ghost use Rattle.host.specs.Host.{start, step, begun, stepped};

mod turn;

use codec::Refusal;
use host::{Command, Host, Phase, Started, Stepped};
use turn::Turn;

// The record of a host that has sent nothing yet, for so many polls.
#[tactic(auto, unfolding(host::specs::Host::start))]
pub fn start(limit: u16) -> Started
    ensures { begun result ≡ start limit }
{
    Started {
        answer: if turn::limited(limit) {
            Ok(())
        } else {
            Err(Refusal::Setting)
        },
        host: turn::begin(limit),
    }
}

// A step: the card's answer to the frame before, empty for silence, and the next frame in the output buffer.
#[tactic(auto, unfolding(host::specs::Host::step, host::specs::Host::turns))]
pub fn step(host: Host, reply: &[u8], out: &mut [u8]) -> Stepped
    ensures { stepped result out.new ≡ step host reply.now out.old }
{
    if turn::unsound(host.limit, host.polls) {
        return turn::refuse(host, Refusal::Record);
    }
    if out.len() < 17 {
        return turn::refuse(host, Refusal::Buffer);
    }
    let turn = match host.phase {
        Phase::Start => Turn {
            found: host.found,
            next: Ok(Command::GoIdleState),
        },
        Phase::Sent(command) => turn::hears(host, command, reply),
        Phase::Ended => return turn::refuse(host, Refusal::Closed),
    };
    turn::take(host, turn, out)
}
