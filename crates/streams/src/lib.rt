//! What the programs share of input and standard error.

#![tactic(auto)]

ghost use Rattle.std.specs.Prelude.{◌≡◌, ◌+◌, ◌^◌, ◌<◌, ◌≤◌, Result, IfOk, length, drop};
ghost use Rattle.std.specs.Io.KnownBytes.{ReadConsumes};
ghost use Rattle.std.specs.declared.io.Error.{Error};
ghost use Rattle.streams.specs.declared.Filled.{Filled};
ghost use Rattle.streams.specs.Reading.{told, length_of, last_of, MoreRead, InputRead, KnownRead};

use std::io::{Read, Write};
use std::{io, str};

// How many bytes of a buffer are read, and how many of them the last read gave: none where it found the input's end.
#[derive(Clone, Copy)]
pub struct Filled {
    pub len: usize,
    pub last: usize,
}

// A read after the first `done` bytes of a buffer has answered so.
fn told(answer: io::Result<usize>, done: usize) -> io::Result<Filled>
    requires { IfOk answer (λ got. done + got < 2 ^ 64) }
    ensures { result ≡ told answer done }
{
    let last = answer?;
    Ok(Filled {
        len: done + last,
        last,
    })
}

// One read more. The first `done` bytes stay.
// `buf` and `done` stay two arguments: a struct of a buffer and how far it is filled would name them no better.
fn read_more<R: Read>(input: &mut R, buf: &mut [u8], done: usize) -> io::Result<Filled>
    requires { done ≤ length buf.old }
    ensures reads { MoreRead done buf.old buf.new result }
    ensures bytes { ReadConsumes (R.remaining input.old) (R.remaining input.new) (last_of result) (drop done buf.new) }
{
    let answer = input.read(&mut buf[done..]);
    told(answer, done)
}

// Reads until the input ends or the buffer is full. Where the input's bytes are known, the buffer has them, and those
// that it has no room for are left; where a read failed, it has all that were taken.
// A `while`: each read takes the rest of the buffer, which no iterator hands out.
pub fn fill<R: Read>(input: &mut R, buf: &mut [u8]) -> io::Result<Filled>
    ensures within { IfOk result (λ r. r.len ≤ length buf.new) }
    ensures reads { InputRead buf.old buf.new result }
    ensures bytes { KnownRead (R.remaining input.old) (R.remaining input.new) buf.new (length_of result) }
{
    let mut filled = Filled { len: 0, last: 0 };
    while filled.len < buf.len() {
        filled = read_more(input, buf, filled.len)?;
        if filled.last == 0 {
            break;
        }
    }
    Ok(filled)
}

// As `fill`: how many bytes the buffer holds then.
pub fn read_full<R: Read>(input: &mut R, buf: &mut [u8]) -> io::Result<usize>
    ensures within { IfOk result (λ n. n ≤ length buf.new) }
    ensures reads { (r : Result Filled Error) × InputRead buf.old buf.new r × (result ≡ length_of r) }
    ensures bytes { KnownRead (R.remaining input.old) (R.remaining input.new) buf.new result }
{
    Ok(fill(input, buf)?.len)
}

// A line on standard error: what failed, and as much of the error's text as 256 bytes hold, without the number that std
// adds to it. Bytes of its own, since a text that `InlineText` cuts ends in dots.
pub fn tell(rt: &impl Eprint, what: &str, error: io::Error) -> io::Result<()> {
    let mut text = [0u8; 256];
    let mut rest = &mut text[..];
    let _ = write!(rest, "{error}");
    let whole = str::from_utf8(&text).unwrap_or("");
    let why = match whole.split_once(" (os error ") {
        Some((why, _)) => why,
        None => whole.trim_end_matches('\0'),
    };
    eprintln!(rt; "{what}: {why}")
}
