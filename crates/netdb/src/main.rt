//! The program `netdb`: its words, files and output are the system's.
#![tactic(auto)]

use netdb_cli::{Status, run_netdb, status_text};
use netdb_outside::{FreeGate, HostFiles, HostOut};
use netlist_schema::NoMemory;
use std::alloc::Global;
use std::process::ExitCode;
use std::rt::Files;
use std::sync::Wait;
use std::thread::Threads;
use std::{env, io};

/// The words after the program's name.
fn words(rt: &HostRuntime) -> io::Result<Vec<String>> {
    let mut words = Vec::new(rt.alloc());
    for (place, word) in env::args(rt)?.enumerate() {
        if place > 0 {
            words.push(word)?;
        }
    }
    Ok(words)
}

/// What stands for the words that could not be had: words that are no text are no command.
fn refused(error: &io::Error) -> Status {
    if error.kind() == io::ErrorKind::OutOfMemory {
        Status::NoMemory
    } else {
        Status::Usage
    }
}

/// What the program says of a status.
fn says(rt: &HostRuntime, status: &Status) -> Result<String, NoMemory> {
    let text = status_text(rt.alloc(), status)?;
    Ok(String::from_utf8_lossy(rt.alloc(), text.as_slice())?)
}

/// Prints the line of a status, where it has one: what is said of it, and before that the name of the file that it is about.
fn print_line(rt: &HostRuntime, words: &[String], status: &Status) -> io::Result<()> {
    let Ok(says) = says(rt, status) else {
        return eprintln!(rt; "netdb: no memory");
    };
    if says.is_empty() {
        return Ok(());
    }
    let Some(word) = status.word() else {
        return eprintln!(rt; "netdb: {says}");
    };
    let name = match words.get(word as usize) {
        Some(name) => name.as_str(),
        None => "",
    };
    eprintln!(rt; "netdb: {name}: {says}")
}

/// Runs the words of a command.
fn run<R: Threads + Wait + Sync + Files + Print>(
    rt: &R,
    alloc: Global,
    words: &[String],
) -> Status {
    let mut files = HostFiles::new(rt);
    let mut out = HostOut::new(rt);
    run_netdb(rt, alloc, words, &mut files, &mut out, &FreeGate)
}

fn main(rt: HostRuntime) -> ExitCode {
    let words = match words(&rt) {
        Ok(words) => words,
        Err(error) => {
            let status = refused(&error);
            let _ = print_line(&rt, &[], &status);
            return ExitCode::from(status.number());
        }
    };
    let status = run(&rt, rt.alloc(), &words);
    let _ = print_line(&rt, &words, &status);
    ExitCode::from(status.number())
}
