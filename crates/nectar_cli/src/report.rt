//! What a person is told at the end of a run: the line on standard error and the status.
ghost use Rattle.std.specs.Prelude.{◌≡◌, option_copied};
ghost use Rattle.nectar_cli.specs.Report.{message_of, status_of};

use nectar_top::Exit;

/// The line on standard error, but for that of files that are no folder's, which has their place in it. None
/// where all went well.
pub fn message(exit: Exit) -> Option<&'static str>
    ensures { option_copied result ≡ message_of exit }
{
    match exit {
        Exit::Done => None,
        Exit::Usage => Some("usage: nectar FOLDER [--quiet] [--generate N]"),
        Exit::SourceFault => Some("nectar: input failed"),
        Exit::SinkFault => Some("nectar: output failed"),
        Exit::StoreFault => Some("nectar: folder failed"),
        Exit::NotAStore { .. } => None,
        Exit::Memory => Some("nectar: out of memory"),
        Exit::ScriptLimit => Some("nectar: script too long"),
    }
}

/// The status of the process.
pub fn status(exit: Exit) -> u8
    ensures { result ≡ status_of exit }
{
    match exit {
        Exit::Done => 0,
        Exit::Usage => 2,
        Exit::SourceFault => 3,
        Exit::SinkFault => 4,
        Exit::StoreFault => 5,
        Exit::Memory => 6,
        Exit::NotAStore { .. } => 7,
        Exit::ScriptLimit => 8,
    }
}
