//! Prints what each file that is named as an argument gives, a sheet or a record, to compare with the file stdout.

#![tactic(auto)]

use analysis::answer::Answer;
use analysis::{Accepted, Analysis};
use printer::outcome;
use std::env::{Env, FillError};
use std::fmt::Display;
use std::fs::File;
use std::{io, str};

fn print_sheet(rt: &impl Print, sheet: &[u8]) -> io::Result<()> {
    let mut text = [0u8; 40000];
    let end = outcome::sheet_text(sheet, &mut text);
    rt.write_all(&text[..end])
}

// A line of a word and the entries of a list.
fn line<T: Display>(rt: &impl Print, word: &str, entries: &[T]) -> io::Result<()> {
    print!(rt; "{word}")?;
    for entry in entries {
        print!(rt; " {entry}")?;
    }
    println!(rt;)
}

// What a refusal gives beside its answer.
const NOTHING: Analysis = Analysis {
    accepted: Accepted {
        bytes: 0,
        arcs: 0,
        groups: 0,
    },
    forward: [0; 128],
    reverse: [0; 128],
    hours: [0; 128],
};

// What a record gives: the answer's number and places, the reduced orders as they are written, both sequences and the
// hours whole. More orders than an area holds are not printed.
fn print_record(rt: &impl Print, record: &[u8]) -> io::Result<()> {
    let mut area = [0u8; 8192];
    let read = analysis::analyse_record(record, &mut area);
    let told = Answer::from(read);
    let places = [
        told.number,
        told.first,
        told.second,
        told.third,
        told.fourth,
    ];
    let found = read.unwrap_or(NOTHING);
    let arcs = found.accepted.arcs.min(4096);
    line(rt, "answer", &places)?;
    line(rt, "arcs", &area[..2 * arcs])?;
    line(rt, "forward", &found.forward)?;
    line(rt, "reverse", &found.reverse)?;
    line(rt, "hours", &found.hours)
}

// A record's name begins with r. Each part is a write of its own, as in a line of entries.
fn print_case(rt: &impl Print, name: &str, bytes: &[u8]) -> io::Result<()> {
    print!(rt; "{name}")?;
    println!(rt;)?;
    if name.starts_with('r') {
        print_record(rt, bytes)
    } else {
        print_sheet(rt, bytes)
    }
}

// What a file gives. One that cannot be opened is told of.
fn file_case(rt: &HostRuntime, path: &[u8]) -> io::Result<()> {
    let Ok(name) = str::from_utf8(path) else {
        let error = io::Error::from(io::ErrorKind::InvalidFilename);
        return streams::tell(rt, "a file", error);
    };
    let mut file = match File::open(rt, name) {
        Ok(file) => file,
        Err(error) => return streams::tell(rt, name, error),
    };
    let mut bytes = [0u8; 65536];
    let count = streams::read_full(&mut file, &mut bytes)?;
    print_case(rt, name, &bytes[..count])
}

// An argument, in the buffer: none where there is no such one. One that is too long for a path is taken as empty.
fn argument<'a>(rt: &HostRuntime, i: usize, buffer: &'a mut [u8; 64]) -> Option<&'a [u8]> {
    match rt.arg(i, buffer) {
        Ok(count) => Some(&buffer[..count]),
        Err(FillError::TooLong) => Some(&[]),
        Err(FillError::NotPresent) => None,
    }
}

fn main(rt: HostRuntime) -> io::Result<()> {
    // one by one, since `env::args` makes each on the heap
    for i in 1..usize::MAX {
        let mut buffer = [0u8; 64];
        let Some(path) = argument(&rt, i, &mut buffer) else {
            break;
        };
        file_case(&rt, path)?;
    }
    Ok(())
}
