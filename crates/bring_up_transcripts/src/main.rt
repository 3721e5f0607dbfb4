// Feeds stored answers of a card to the host, one file after the other: a line of `list` has the limit and the file of each.
#![tactic(auto)]

ghost use Rattle.std.specs.Prelude.{◌≤◌, length};
ghost use Rattle.std.specs.Io.{ReadsAtMost};

use std::fs::File;
use std::io::{Error, ErrorKind, Read};
use std::rt::Files;
use std::str;

// Opens a file by its name, which has to be text.
fn open<R: Files>(rt: &R, name: &[u8]) -> std::io::Result<R::File> {
    match str::from_utf8(name) {
        Ok(path) => File::open(rt, path),
        Err(_) => Err(Error::from(ErrorKind::InvalidFilename)),
    }
}

fn bring_up(rt: &(impl Files + Print + Eprint), name: &[u8], limit: &[u8]) -> std::io::Result<()> {
    let mut file = match open(rt, name) {
        Ok(file) => file,
        Err(error) => {
            io::write_all(2, name);
            return eprintln!(rt; ": {error}");
        }
    };
    for text in [b"# limit ".as_slice(), limit, b", ", name, b"\n"] {
        io::write_all(1, text);
    }
    bring_up_run::run(rt, &mut file, limit)
}

// What is before a byte, and what is behind it.
fn cut(text: &[u8], byte: u8) -> Option<(&[u8], &[u8])> {
    let at = text.iter().position(|b| *b == byte)?;
    Some((&text[..at], &text[at + 1..]))
}

// The history of each whole line.
fn all(rt: &(impl Files + Print + Eprint), list: &[u8]) -> std::io::Result<()> {
    let mut rest = list;
    // a proved loop has to end
    for _ in 0..1000 {
        let Some((limit, behind)) = cut(rest, b'\t') else {
            break;
        };
        let Some((name, next)) = cut(behind, b'\n') else {
            break;
        };
        bring_up(rt, name, limit)?;
        rest = next;
    }
    Ok(())
}

// Reads until the text is full or the file ends: how many bytes. No call of the library does so without the heap.
fn read_full<R: Read>(input: &mut R, text: &mut [u8]) -> std::io::Result<usize>
    ensures { ReadsAtMost result text.new }
{
    let mut done: usize = 0;
    while done < text.len() {
        let n = input.read(&mut text[done..])?;
        if n == 0 {
            break;
        }
        done += n;
    }
    Ok(done)
}

fn main(rt: HostRuntime) -> std::io::Result<()> {
    let mut text = io::buffer();
    let n = read_full(&mut File::open(&rt, "list")?, &mut text)?;
    all(&rt, &text[..n])
}
