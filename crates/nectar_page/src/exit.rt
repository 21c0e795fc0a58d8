//! How a run ends: the line on standard error and the status, which is that of `nectar` where it has one.
ghost use Rattle.std.specs.Prelude.{◌≡◌};
ghost use Rattle.nectar_page.specs.Exit.{status_of};

use catalog_page::ReadRefusal;

/// How a run ends.
#[derive(Clone, Copy)]
pub enum Exit {
    /// The whole page was written.
    Done,
    SourceFault,
    SinkFault,
    Memory,
    NotCatalogue(ReadRefusal),
}

/// The line on standard error.
pub fn message(exit: Exit) -> &'static str {
    match exit {
        Exit::Done => "nectar_page: done",
        Exit::SourceFault => "nectar_page: input failed",
        Exit::SinkFault => "nectar_page: output failed",
        Exit::Memory => "nectar_page: out of memory",
        Exit::NotCatalogue(_) => "nectar_page: not a catalogue",
    }
}

/// The status of the process.
pub fn status(exit: Exit) -> u8
    ensures { result ≡ status_of exit }
{
    match exit {
        Exit::Done => 0,
        Exit::SourceFault => 3,
        Exit::SinkFault => 4,
        Exit::Memory => 6,
        Exit::NotCatalogue(_) => 7,
    }
}
