//! Reads a sheet from standard input and prints what it gives.

#![tactic(auto)]

ghost use Rattle.std.specs.Prelude.{◌≤◌, ◌≡◌, IfOk, length};
ghost use Rattle.streams.specs.Reading.{length_of, InputRead, KnownRead};
ghost use Rattle.printer.specs.Buffer.{Prints};
ghost use Rattle.ordersheet.specs.Reading.{buffer_size, answered};

use analysis::LONGEST_SHEET;
use printer::outcome;
use std::io;
use std::io::Read;
use streams::Filled;

// Reads until the input ends, the buffer is full or a read fails: how many bytes there are then.
fn read_input<R: Read>(input: &mut R, buf: &mut [u8]) -> io::Result<Filled>
    requires { length buf.old ≡ buffer_size }
    ensures within { IfOk result (λ r. r.len ≤ length buf.new) }
    ensures reads { InputRead buf.old buf.new result }
    ensures bytes { KnownRead (R.remaining input.old) (R.remaining input.new) buf.new (length_of result) }
{
    streams::fill(input, buf)
}

// The text to print, at the start of its buffer: none where a read failed. Returns its length.
fn text_of(input: &io::Result<Filled>, buf: &[u8], text: &mut [u8; 40000]) -> usize
    requires { IfOk input.now (λ r. r.len ≤ length buf.now) }
    ensures { Prints text.old (answered input.now buf.now) text.new result }
{
    match input {
        Ok(read) => outcome::sheet_text(&buf[..read.len], text),
        Err(_) => 0,
    }
}

fn write_text(rt: &(impl Print + Eprint), text: &[u8]) {
    if let Err(error) = rt.write_all(text) {
        let _ = streams::tell(rt, "write", error);
    }
}

fn main(rt: HostRuntime) {
    // one byte more than the longest sheet: what is longer is read no further
    let mut sheet = [0u8; LONGEST_SHEET + 1];
    let input = read_input(&mut rt.stdin(), &mut sheet);
    let mut text = [0u8; 40000];
    let end = text_of(&input, &sheet, &mut text);
    if let Err(error) = input {
        let _ = streams::tell(&rt, "read", error);
    }
    write_text(&rt, &text[..end]);
}
