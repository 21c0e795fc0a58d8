//! How a run of the program ends.

/// How a run of the program ended.
#[derive(Clone, Copy, Debug, PartialEq, Eq)]
pub enum Exit {
    /// The source was read to its end, and each command was answered.
    Done,
    /// The words aren't accepted. Nothing was touched.
    Usage,
    /// A read of the source failed.
    SourceFault,
    /// A write to the sink failed.
    SinkFault,
    /// A call of the store failed while the folder was loaded, or a write, cut or sync in a command.
    StoreFault,
    /// There was no memory to begin with. The source and the sink are as they were.
    Memory,
    /// The folder's log files are none of this program's: reading them stops in this file, at this byte. The
    /// source, the sink and the files are as they were.
    NotAStore { file: u64, at: u64 },
    /// The source gave more than 1,073,741,824 bytes.
    ScriptLimit,
}
