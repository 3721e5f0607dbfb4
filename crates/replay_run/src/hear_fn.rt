// A function that hears a chunk of the input.
use super::Listener;
use replay_answer::Session;

// It may be called whatever the session and the chunk: the type says so, and therefore no call asks for it.
#[derive(Drop)]
pub struct HearFn {
    pub hear: fn(Session, &mut [u8], &mut [u8], &mut [u8], &[u8]) -> Session,
    pub ghost callable: { IsAlwaysCallable hear },
}

impl Listener for HearFn {
    fn hear(
        &self,
        s: Session,
        memory: &mut [u8],
        line: &mut [u8],
        text: &mut [u8],
        chunk: &[u8],
    ) -> Session {
        (self.hear)(s, memory, line, text, chunk)
    }
}
