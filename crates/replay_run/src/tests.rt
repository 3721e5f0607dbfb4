// What is handed over: a function that plays a line, one that hears a chunk, and a program that is not one of any input.
use super::{FileProgram, HearFn, hear_input, stored};
use codec::front;
use replay_answer::Session;
use replay_answer::bench::bench;
use replay_session::{PlayFn, hear_all_by};
use replay_write::zeros;
use std::cell::Cell;
use std::io::{Seek, SeekFrom};

#[test]
fn lines_are_played_by_the_function(rt: HostRuntime) {
    let mut memory = zeros();
    let mut line = [0u8; 1033];
    let mut text = zeros::<4096>();
    let s = Session {
        card: bench(&memory),
        count: 0,
        wrote: 0,
    };
    let by = PlayFn {
        play: |card, memory, line, text| replay_answer::unreadable(card, text),
    };
    let s = hear_all_by(s, &mut memory, &mut line, &mut text, b"over\ntake\n", &by);
    assert_eq!(rt; front(&text, s.wrote), b"ref\t1\nref\t1\n".as_slice());
}

#[test]
fn chunks_are_heard_by_the_function(rt: HostRuntime) -> std::io::Result<()> {
    let mut memory = zeros();
    let mut line = [0u8; 1033];
    let mut input = b"over\n".as_slice();
    let card = bench(&memory);
    let by = HearFn {
        hear: |s, memory, line, text, chunk| {
            codec::copy(memory, chunk);
            s
        },
    };
    hear_input(&mut input, card, &mut memory, &mut line, &by)?;
    assert_eq!(rt; front(&memory, 5), b"over\n".as_slice());
    Ok(())
}

// Counts the files that it can move in, which no program of any input can do.
#[derive(Drop)]
struct Moves {
    files: Cell<u8>,
}

impl<F: Seek> FileProgram<F> for Moves {
    fn play(&self, file: &mut F) -> std::io::Result<()> {
        let _ = file.seek(SeekFrom::Start(0))?;
        self.files.set(self.files.get().wrapping_add(1));
        Ok(())
    }
}

// A folder can be opened and moved in, and not read.
#[test]
fn histories_are_played_from_their_files(rt: HostRuntime) -> std::io::Result<()> {
    let moves = Moves {
        files: Cell::new(0),
    };
    stored(&rt, &[".", "no such history", "."], &moves)?;
    assert_eq!(rt; moves.files.get(), 2);
    Ok(())
}
