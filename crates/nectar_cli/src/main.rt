//! The program: `nectar FOLDER [--quiet] [--generate N] < script`.
#![tactic(auto)]

ghost use Rattle.std.specs.Prelude.{◌≡◌, map, drop, string_bytes, IfOk};

mod report;

use crate::report::{message, status};
use folder_store::FolderStore;
use nectar_top::{Exit, nectar};
use outside_traits::{ReaderSource, WriterSink};
use std::alloc::{AllocError, Global};
use std::fs::File;
use std::io::ErrorKind;
use std::process::ExitCode;
use std::rt::{Env, Files};
use std::{env, io};

fn main(rt: HostRuntime) -> ExitCode {
    let mut store = FolderStore::new(&rt);
    let exit = run(&rt, &mut store);
    // The status tells as much where standard error takes nothing.
    let _ = tell(&rt, exit, store.failure());
    ExitCode::from(status(exit))
}

// Writes the line on standard error, and behind that of a folder that failed why it did.
fn tell(rt: &HostRuntime, exit: Exit, failure: Option<io::Error>) -> io::Result<()> {
    if let Exit::NotAStore { file, at } = exit {
        return eprintln!(rt; "nectar: not a store: file {file} at {at}");
    }
    if let Some(message) = message(exit) {
        rt.eprintln(message)?;
    }
    match failure {
        Some(failure) if exit == Exit::StoreFault => eprintln!(rt; "nectar: {failure}"),
        _ => Ok(()),
    }
}

// Runs the program on the command line, standard input and standard output, over the store.
fn run<R>(rt: &R, store: &mut FolderStore<'_, R>) -> Exit
where
    R: AllocGlobal + Env + Files<File = File> + Input + Print + Clone + Drop,
{
    let arguments = match env::args(rt) {
        Ok(arguments) => arguments,
        Err(error) if error.kind() == ErrorKind::OutOfMemory => return Exit::Memory,
        Err(_) => return Exit::Usage,
    };
    let Ok(arguments) = arguments.collect::<Vec<String>>(rt.alloc()) else {
        return Exit::Memory;
    };
    let Ok(words) = words_of(rt.alloc(), &arguments) else {
        return Exit::Memory;
    };
    let mut source = ReaderSource::new(rt.reader());
    let mut sink = WriterSink::new(io::writer(rt));
    nectar(rt.alloc(), &words, &mut source, &mut sink, store)
}

// The words of the command line behind the program's own name.
fn words_of<'a>(alloc: Global, arguments: &'a [String]) -> Result<Vec<&'a str>, AllocError>
    ensures { IfOk result
        (λ words. map (λ word. word.now) words.items ≡ map string_bytes (drop 1 arguments.now)) }
{
    match arguments {
        [_, rest @ ..] => texts_of(alloc, rest),
        [] => Ok(Vec::new(alloc)),
    }
}

// The texts, in order.
fn texts_of<'a>(alloc: Global, strings: &'a [String]) -> Result<Vec<&'a str>, AllocError>
    ensures { IfOk result (λ texts. map (λ text. text.now) texts.items ≡ map string_bytes strings.now) }
{
    let mut texts = Vec::new(alloc);
    for string in strings {
        texts.push(string.as_str())?;
    }
    Ok(texts)
}
