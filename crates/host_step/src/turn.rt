// What a step comes to: the next frame, or an end.
ghost use Rattle.std.specs.Prelude.{◌≡◌, ◌≤◌, false, List, ℕ, length};
ghost use Rattle.host.specs.Host.{begin, limited, unsound, sends, goes, follows, hears, stepped};
ghost use Rattle.host_step.specs.Turn.{comes_to};

use codec::Refusal;
use host::{Answer, Command, Found, Host, Judgement, Phase, Stepped};
use host_reply::hear;
use host_sequence::{counts, exhausted, row};

// What is known of the card then, and the next command, or the end's answer.
#[derive(Clone, Copy, Debug, PartialEq, Eq)]
pub(crate) struct Turn {
    pub(crate) found: Found,
    pub(crate) next: Result<Command, Answer>,
}

// 1 to 1,000 polls.
pub(crate) fn limited(limit: u16) -> bool
    ensures { result ≡ limited limit }
{
    (1..=1000).contains(&limit)
}

// Limit or polls out of range.
#[tactic(auto, unfolding(host::specs::Host::unsound))]
pub(crate) fn unsound(limit: u16, polls: u16) -> bool
    ensures value { result ≡ unsound limit polls }
    ensures in_range { result ≡ false → polls ≤ 1000 }
{
    !limited(limit) || limit < polls
}

// Nothing is known of the card yet: zeros, as the model has them, since the record shows what was found in plain numbers and bytes.
pub(crate) fn begin(limit: u16) -> Host
    ensures { result ≡ begin limit }
{
    Host {
        limit,
        polls: 0,
        phase: Phase::Start,
        found: Found {
            rca: 0,
            cid: [0; 16],
            csd: [0; 16],
        },
    }
}

// The record stays.
pub(crate) fn refuse(host: Host, refusal: Refusal) -> Stepped
    ensures { result ≡ record { answer = Answer.Refused refusal; host = host } }
{
    Stepped {
        answer: Answer::Refused(refusal),
        host,
    }
}

// The frame of a command, a prefix of the output buffer.
fn sends(host: Host, found: Found, command: Command, out: &mut [u8]) -> Stepped
    requires polls_bound { host.polls ≤ 1000 }
    requires in_bounds { 17 ≤ length out.old }
    ensures { stepped result out.new ≡ sends host found command out.old }
{
    let row = row(command, found.rca);
    Stepped {
        answer: wire_frame::command::encode(row.index, row.argument, out).into(),
        host: Host {
            polls: host.polls + u16::from(counts(row.index)),
            phase: Phase::Sent(command),
            found,
            ..host
        },
    }
}

// The frame, or the end.
pub(crate) fn take(host: Host, turn: Turn, out: &mut [u8]) -> Stepped
    requires polls_bound { host.polls ≤ 1000 }
    requires in_bounds { 17 ≤ length out.old }
    ensures { stepped result out.new ≡ comes_to host turn.found turn.next out.old }
{
    match turn.next {
        Ok(command) => sends(host, turn.found, command, out),
        Err(answer) => Stepped {
            answer,
            host: Host {
                phase: Phase::Ended,
                found: turn.found,
                ..host
            },
        },
    }
}

// The next command, unless it is one of a poll and none is left.
#[tactic(auto, unfolding(host::specs::Host::goes, host::specs::Host::end))]
fn goes(host: Host, found: Found, command: Command) -> Result<Command, Answer>
    ensures { (out : List ℕ) → comes_to host found result out ≡ goes host found command out }
{
    if exhausted(row(command, found.rca).index, host.limit, host.polls) {
        return Err(Answer::NotReady);
    }
    Ok(command)
}

#[tactic(auto, unfolding(host::specs::Host::follows, host::specs::Host::end))]
fn follows(host: Host, found: Found, next: Option<Command>) -> Result<Command, Answer>
    ensures { (out : List ℕ) → comes_to host found result out ≡ follows host found next out }
{
    goes(host, found, next.ok_or(Answer::Selected)?)
}

// A reply to a command: a card that is busy is polled again.
#[tactic(auto, unfolding(host::specs::Host::hears, host::specs::Host::answered, host::specs::Host::end))]
pub(crate) fn hears(host: Host, command: Command, reply: &[u8]) -> Turn
    ensures { (out : List ℕ) → comes_to host result.found result.next out ≡ hears host command reply.now out }
{
    let row = row(command, host.found.rca);
    match hear(row.answer, row.index, host.found, reply) {
        Ok(heard) => Turn {
            found: heard.found,
            next: match heard.judgement {
                Judgement::Expected => follows(host, heard.found, row.next),
                Judgement::Busy => goes(host, heard.found, Command::AppCmd),
            },
        },
        Err(reason) => Turn {
            found: host.found,
            next: Err(Answer::Stopped { command, reason }),
        },
    }
}
