//! The program: `nectar_page < LINE > PAGE`.
#![tactic(auto)]

mod exit;

use crate::exit::{Exit, message, status};
use catalog_page::{ReadRefusal, page_of_line};
use std::io;
use std::io::{ErrorKind, Write};
use std::process::ExitCode;

fn main(rt: HostRuntime) -> ExitCode {
    let exit = run(&rt);
    // The status tells as much where standard error takes nothing.
    let _ = tell(&rt, exit);
    ExitCode::from(status(exit))
}

// Writes a line on standard error, unless all went well.
fn tell(rt: &HostRuntime, exit: Exit) -> io::Result<()> {
    match exit {
        Exit::Done => Ok(()),
        Exit::NotCatalogue(refusal) => eprintln!(rt; "nectar_page: not a catalogue: {refusal}"),
        other => rt.eprintln(message(other)),
    }
}

// Reads the line from standard input, and writes its page on standard output.
fn run<R>(rt: &R) -> Exit
where
    R: AllocGlobal + Input + Print + Clone + Drop,
{
    let line = match io::read_to_string(rt.alloc(), rt.reader()) {
        Ok(line) => line,
        Err(error) if error.kind() == ErrorKind::OutOfMemory => return Exit::Memory,
        Err(error) if error.kind() == ErrorKind::InvalidData => {
            return Exit::NotCatalogue(ReadRefusal::NotJson);
        }
        Err(_) => return Exit::SourceFault,
    };
    match page_of_line(rt.alloc(), line.as_str()) {
        Ok(page) => match io::writer(rt).write_all(page.items()) {
            Ok(()) => Exit::Done,
            Err(_) => Exit::SinkFault,
        },
        Err(ReadRefusal::Memory) => Exit::Memory,
        Err(refusal) => Exit::NotCatalogue(refusal),
    }
}
