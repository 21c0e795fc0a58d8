//! What the words of the command line ask for.
ghost use Rattle.std.specs.Prelude.{◌≡◌, IfOk, is_some, option_map};
ghost use Rattle.clap.specs.Words.{found_of, rows_of};
ghost use Rattle.clap.specs.Walk.{texts};
ghost use Rattle.command_words.specs.Told.{HasNumber, are_accepted, found_words, told, told_of};

use crate::command::nectar_command;
use clap::ArgMatches;
use clap::error::ErrorKind;
use rows_core::Memory;
use std::alloc::Global;

/// What the words of the command line ask for: `FOLDER [--quiet] [--generate NUMBER]`.
#[derive(Clone, Copy, PartialEq, Eq)]
pub struct Words<'a> {
    /// The folder, which isn't empty.
    pub folder: &'a str,
    /// Whether `--quiet` is given.
    pub quiet: bool,
    /// The number behind `--generate`, as `u64` reads it: decimal digits, before which a `+` may stand.
    pub generate: Option<u64>,
}

/// Reads the words of the command line, without the program's own name. `None` exactly where they aren't
/// accepted: the command doesn't take them, by `clap`'s own definition, or the folder is empty. A request for
/// help isn't accepted either. `Memory` where memory was asked for and refused.
pub fn read_words<'a>(alloc: Global, words: &'a [&'a str]) -> Result<Option<Words<'a>>, Memory>
    ensures accepted { IfOk result (λ read. is_some read ≡ are_accepted (texts words.now)) }
    ensures read { IfOk result (λ read. option_map told_of read ≡ told (texts words.now)) }
{
    let command = nectar_command(alloc)?;
    match command.try_get_matches_from(words) {
        Ok(matches) => Ok(words_of(&matches)),
        Err(error) => match error.kind() {
            ErrorKind::OutOfMemory => Err(Memory),
            _ => Ok(None),
        },
    }
}

// What the matches tell, where the folder isn't empty.
fn words_of<'a>(matches: &ArgMatches<'a>) -> Option<Words<'a>>
    requires { HasNumber (rows_of (found_of matches.now)) }
    ensures { option_map told_of result ≡ found_words (rows_of (found_of matches.now)) }
{
    match matches.get_str("folder") {
        Some(folder) if !folder.is_empty() => Some(Words {
            folder,
            quiet: matches.get_one::<bool>("quiet").unwrap_or(false),
            generate: matches.get_one::<u64>("generate"),
        }),
        _ => None,
    }
}
