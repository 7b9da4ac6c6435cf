//! Reads sheets from standard input and prints what the reader says of each, to compare with the file stdout.
//! A case is a name, a colon, the bytes of a sheet, and the byte 254.

#![tactic(auto)]

ghost use Rattle.std.specs.Prelude.{◌<◌, ◌≤◌, length, IfSome};

use sheet::{Broken, Sheet};
use std::io;

// Prints the count and how many arcs there are, or the place of the fault: each a write of its own, as in a list.
fn result(rt: &impl Print, read: Result<Sheet, Broken>) -> io::Result<()> {
    match read {
        Ok(Sheet { jobs, arcs }) => {
            print!(rt; ": sheet")?;
            print!(rt; " {jobs}")?;
            print!(rt; " {arcs}")
        }
        Err(Broken { at }) => {
            print!(rt; ": broken")?;
            print!(rt; " {at}")
        }
    }
}

fn numbers(rt: &impl Print, list: &[u16]) -> io::Result<()> {
    for n in list {
        print!(rt; " {n}")?;
    }
    Ok(())
}

// No hours: they have at most four digits.
// A number, no Option: `read_sheet` fills a list of 16-bit numbers, and which of them it writes is what is told.
const BARE: u16 = 10000;

// How many of the list's numbers there are up to the last that is not BARE.
fn filled(list: &[u16]) -> usize
    ensures { result ≤ length list.now }
{
    match list.iter().rposition(|n| *n != BARE) {
        Some(last) => last + 1,
        None => 0,
    }
}

// Reads a sheet into lists with room for the hours of 128 jobs, and for two arcs and one number more. Prints the
// result, the hours that were read, and the whole list of arcs.
fn case(rt: &impl Print, name: &[u8], s: &[u8]) -> io::Result<()> {
    let mut hours = [BARE; 128];
    let mut list = [9u16; 5];
    let read = sheet::read_sheet(s, &mut hours, &mut list);
    rt.write_all(name)?;
    result(rt, read)?;
    rt.write_all(b" |")?;
    numbers(rt, &hours[..filled(&hours)])?;
    rt.write_all(b" |")?;
    numbers(rt, &list)?;
    rt.write_all(b"\n")
}

// The bytes ahead of the first that is `b`, and those after it.
fn cut(s: &[u8], b: u8) -> Option<(&[u8], &[u8])>
    ensures { IfSome result (λ parts. length parts.1.now < length s.now) }
{
    let at = s.iter().position(|x| *x == b)?;
    Some((&s[..at], &s[at + 1..]))
}

fn cases(rt: &impl Print, s: &[u8]) -> io::Result<()> {
    let mut rest = s;
    while let Some((name, after)) = cut(rest, b':') {
        let Some((sheet, others)) = cut(after, 254) else {
            break;
        };
        case(rt, name, sheet)?;
        rest = others;
    }
    Ok(())
}

fn main(rt: HostRuntime) -> io::Result<()> {
    let mut text = [0u8; 65536];
    let n = streams::read_full(&mut rt.stdin(), &mut text)?;
    cases(&rt, &text[..n])
}
