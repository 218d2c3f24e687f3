//! Judges the device tables that its arguments name, one line for each, or the one on its standard input where none is named; last it says on
//! standard error whether all are good, any is refused, or any could not be judged.
#![tactic(auto)]

use lines::Why;
use std::env::FillError;
use std::fs::File;
use std::io::{ErrorKind, Read};
use std::rt::{Env, Files};
use std::{fmt, io};

/// What came of the files, worst last.
#[derive(Clone, Copy, Debug, PartialEq, Eq, PartialOrd, Ord, Hash)]
enum Outcome {
    Good,
    Refused,
    Unjudged,
}

/// The word that a script turns into an exit status.
impl fmt::Display for Outcome {
    fn fmt<W: fmt::Write>(&self, f: &mut fmt::Formatter<W>) -> fmt::Result {
        match self {
            Outcome::Good => write!(f, "good"),
            Outcome::Refused => write!(f, "refused"),
            Outcome::Unjudged => write!(f, "unjudged"),
        }
    }
}

/// What the system says of a file whose rights keep it from being read; std's kind takes EPERM, which is something else, with it.
const EACCES: i32 = 13;

/// Room for 65,536 bytes, which no good table comes to, and one byte more.
const ROOM: usize = 65537;

/// Why a file could not be opened or read, by what the system says.
fn why_not(error: &io::Error) -> Why {
    match error.kind() {
        ErrorKind::NotFound => Why::Absent,
        ErrorKind::IsADirectory => Why::Folder,
        ErrorKind::PermissionDenied if error.raw_os_error() == Some(EACCES) => Why::Barred,
        _ => Why::Broken,
    }
}

/// Reads to the end of the input, and answers how many bytes there are. A read that fails is told from the end, so that no beginning of a file is
/// judged for the whole.
fn read_all<R: Read>(input: &mut R, buffer: &mut [u8]) -> Result<usize, Why> {
    let mut done = 0;
    // No iterator: each step is as long as the read says.
    while done < buffer.len() {
        match input.read(&mut buffer[done..]) {
            Ok(0) => return Ok(done),
            Ok(count) => done += count,
            Err(error) => return Err(why_not(&error)),
        }
    }
    Err(Why::Longer)
}

/// Writes the line of a table by one call.
fn tell_judged(rt: &impl Print, name: &[u8], table: &[u8]) -> io::Result<Outcome> {
    rt.write_all(&lines::table_line(name, table))?;
    match devices::judge(table) {
        Ok(_) => Ok(Outcome::Good),
        Err(_) => Ok(Outcome::Refused),
    }
}

/// Writes the line of a file that could not be judged by one call.
fn tell_unjudged(rt: &impl Print, name: &[u8], why: Why) -> io::Result<Outcome> {
    rt.write_all(&lines::unjudged_line(name, why))?;
    Ok(Outcome::Unjudged)
}

fn judge_input<R: Read>(rt: &impl Print, input: &mut R, name: &[u8]) -> io::Result<Outcome> {
    let mut buffer = [0u8; ROOM];
    match read_all(input, &mut buffer) {
        Ok(count) => tell_judged(rt, name, octets::part_of(&buffer, 0, count)),
        Err(why) => tell_unjudged(rt, name, why),
    }
}

/// The file that has this name; a name that is no text is of no file that can be opened here.
fn judge_named(rt: &(impl Print + Files), name: &[u8]) -> io::Result<Outcome> {
    let Ok(path) = std::str::from_utf8(name) else {
        return tell_unjudged(rt, name, Why::Broken);
    };
    match File::open(rt, path) {
        Ok(mut file) => judge_input(rt, &mut file, name),
        Err(error) => tell_unjudged(rt, name, why_not(&error)),
    }
}

/// The file that an argument names, if there is one; of one that is longer than a path may be the front is told.
fn judge_file(rt: &(impl Print + Files + Env), i: usize) -> io::Result<Option<Outcome>> {
    let mut path = [0u8; 4096];
    let outcome = match rt.arg(i, &mut path) {
        Ok(length) => judge_named(rt, octets::part_of(&path, 0, length))?,
        Err(FillError::TooLong) => tell_unjudged(rt, &path, Why::Broken)?,
        Err(FillError::NotPresent) => return Ok(None),
    };
    Ok(Some(outcome))
}

/// The files that the arguments name, to the first line that cannot be written; the worst of what came of them.
fn judge_files(rt: &(impl Print + Files + Env)) -> io::Result<Outcome> {
    let mut worst = Outcome::Good;
    for i in 1..usize::MAX {
        match judge_file(rt, i)? {
            Some(outcome) => worst = worst.max(outcome),
            None => break,
        }
    }
    Ok(worst)
}

/// Whether an argument names a file.
fn is_named(rt: &impl Env) -> bool {
    let mut first = [0u8; 1];
    !matches!(rt.arg(1, &mut first), Err(FillError::NotPresent))
}

fn main(rt: HostRuntime) {
    let judged = if is_named(&rt) {
        judge_files(&rt)
    } else {
        judge_input(&rt, &mut rt.stdin(), b"-")
    };
    let _ = match judged {
        Ok(outcome) => eprintln!(rt; "{outcome}"),
        Err(error) => eprintln!(rt; "tables: standard output: {error}"),
    };
}
