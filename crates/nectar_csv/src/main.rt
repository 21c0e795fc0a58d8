//! The program: `nectar_csv append STREAM COLUMN:KIND.. < FILE.csv` and `nectar_csv rows [N] < ANSWERS`.
#![tactic(auto)]

mod command;
mod report;
mod words;

use crate::report::{Ending, tell};
use crate::words::{AppendWords, RowsWords, Words, read_words};
use csv_rows::write_csv;
use csv_script::{Request, reader_of, write_script};
use rows_core::Memory;
use std::alloc::Global;
use std::io::BufReader;
use std::process::ExitCode;
use std::rt::Env;
use std::{env, io};

fn main(rt: HostRuntime) -> ExitCode {
    let ending = run(&rt);
    // The status tells as much where standard error takes nothing.
    let _ = tell(&rt, &ending);
    ExitCode::from(ending.status())
}

// Runs the program on the command line, standard input and standard output.
fn run<R: AllocGlobal + Env + Input + Print + Clone + Drop>(rt: &R) -> Ending {
    let Ok(arguments) = env::args(rt) else {
        return Ending::Usage;
    };
    let Ok(arguments) = arguments.collect::<Vec<String>>(rt.alloc()) else {
        return Ending::Memory;
    };
    match read_words(rt.alloc(), arguments.as_slice()) {
        Ok(Some(Words::Append(words))) => append(rt, &words),
        Ok(Some(Words::Rows(words))) => rows(rt, &words),
        Ok(None) => Ending::Usage,
        Err(Memory) => Ending::Memory,
    }
}

// Standard input as a script of appends.
fn append<R: AllocGlobal + Input + Print + Clone + Drop>(rt: &R, words: &AppendWords) -> Ending {
    let request = Request {
        name: &words.stream,
        schema: &words.schema,
        declares: words.declares,
        skips: words.skips,
    };
    let mut script = io::writer(rt);
    let mut file = reader_of(rt.alloc(), rt.reader());
    match write_script(rt.alloc(), &request, &mut file, &mut script) {
        Ok(skipped) => Ending::Written { skipped },
        Err(why) => Ending::Append(why),
    }
}

// The rows of a result in standard input as CSV.
fn rows<R: AllocGlobal + Input + Print + Clone + Drop>(rt: &R, words: &RowsWords<'_>) -> Ending {
    let Ok(mut answers) = BufReader::new(rt.alloc(), rt.reader()) else {
        return Ending::Memory;
    };
    match write_csv(
        rt.alloc(),
        words.number,
        words.header.as_slice(),
        &mut answers,
        io::writer(rt),
    ) {
        Ok(_) => Ending::Written { skipped: 0 },
        Err(why) => Ending::Rows(why),
    }
}
