//! The cases of a program: a case a line on standard input, and on standard output a line for each, what it gives.
//! A line that is empty or begins with `#` is no case.

use anyhow::Result;
use std::alloc::Global;
use std::io;

/// Answers each case; a refusal is the error that its type prints. An error comes where a line isn't read, or an
/// answer isn't written.
pub fn answer_each<F>(rt: HostRuntime, answer: F) -> io::Result<()>
where
    F: Fn(Global, &str) -> Result<String>,
    requires { F.IsAlwaysCallable answer }
{
    let alloc = rt.alloc();
    for line in rt.lines(alloc) {
        let line = line?;
        if line.is_empty() || line.starts_with('#') {
            continue;
        }
        match answer(alloc, line.as_str()) {
            Ok(answer) => println!(rt; "{answer}")?,
            Err(refusal) => println!(rt; "{refusal}")?,
        }
    }
    Ok(())
}
