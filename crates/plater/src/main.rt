//! The program: standard input to standard output, and the status as the exit status.
#![tactic(auto)]

use pl_plater::{Status, plater};
use pl_ports::{OpenGate, StdinSource, StdoutSink};
use std::alloc::AllocError;
use std::process::ExitCode;
use std::rt::Env;
use std::{env, io};

// The words of the command line after the program's name.
fn words(rt: &(impl Env + AllocGlobal)) -> io::Result<Vec<String>> {
    let mut words = Vec::new(rt.alloc());
    for word in env::args(rt)?.skip(1) {
        words.push(word).map_err(AllocError::from)?;
    }
    Ok(words)
}

// How the program ends where its words could not be read: memory was wanting, or a word is no text.
fn unread(error: &io::Error) -> Status {
    if error.kind() == io::ErrorKind::OutOfMemory {
        Status::NoMemory
    } else {
        Status::Usage
    }
}

// What is said of a run that was not done.
fn tell(rt: &impl Eprint, status: &Status) -> io::Result<()> {
    match status {
        Status::Done => Ok(()),
        Status::Usage => eprintln!(rt; "usage: plater run | slice | demo N"),
        Status::Refused { line, fault } => eprintln!(rt; "plater: line {line}: {fault}"),
        Status::ReadFault => eprintln!(rt; "plater: read failed"),
        Status::WriteFault => eprintln!(rt; "plater: write failed"),
        Status::NoMemory => eprintln!(rt; "plater: out of memory"),
    }
}

fn main(rt: HostRuntime) -> ExitCode {
    let status = match words(&rt) {
        Ok(words) => {
            let mut source = StdinSource::new(rt.stdin());
            let mut sink = StdoutSink::new(rt.stdout());
            plater(&rt, rt.alloc(), &words, &mut source, &mut sink, &OpenGate)
        }
        Err(error) => unread(&error),
    };
    let _ = tell(&rt, &status);
    ExitCode::from(status.code())
}
