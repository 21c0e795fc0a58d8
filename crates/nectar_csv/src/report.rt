//! What a person is told at the end of a run.

use csv_rows::RowsRefusal;
use csv_script::{AppendRefusal, HeaderRefusal, RecordRefusal};
use std::io;

/// How a run ended.
#[derive(Clone, Copy)]
pub enum Ending {
    Usage,
    Memory,
    Written { skipped: u64 },
    Append(AppendRefusal),
    Rows(RowsRefusal),
}

impl Ending {
    /// The status of the process.
    pub fn status(&self) -> u8 {
        match self {
            Ending::Written { .. } => 0,
            Ending::Usage => 2,
            Ending::Append(AppendRefusal::Input) | Ending::Rows(RowsRefusal::Input) => 3,
            Ending::Append(AppendRefusal::Output) | Ending::Rows(RowsRefusal::Output) => 4,
            Ending::Memory
            | Ending::Append(AppendRefusal::Memory)
            | Ending::Append(AppendRefusal::Header(HeaderRefusal::Memory))
            | Ending::Rows(RowsRefusal::Memory) => 6,
            Ending::Append(_) | Ending::Rows(_) => 7,
        }
    }
}

/// Writes the line on standard error, where there is one.
pub fn tell(rt: &HostRuntime, ending: &Ending) -> io::Result<()> {
    match ending {
        Ending::Usage => rt.eprintln(
            "usage: nectar_csv append STREAM COLUMN:KIND.. [--stream] [--skip] | nectar_csv rows [N] [--header A,B]",
        ),
        Ending::Memory => rt.eprintln("nectar_csv: out of memory"),
        Ending::Written { skipped: 0 } => Ok(()),
        Ending::Written { skipped } => eprintln!(rt; "nectar_csv: {skipped} records left out"),
        Ending::Append(why) => tell_append(rt, why),
        Ending::Rows(why) => tell_rows(rt, why),
    }
}

fn tell_append(rt: &HostRuntime, why: &AppendRefusal) -> io::Result<()> {
    match why {
        AppendRefusal::NoHeader => rt.eprintln("nectar_csv: no header"),
        AppendRefusal::Header(why) => tell_header(rt, why),
        AppendRefusal::Record { number, line, why } => tell_record(rt, *number, *line, why),
        AppendRefusal::Input => rt.eprintln("nectar_csv: input failed"),
        AppendRefusal::Output => rt.eprintln("nectar_csv: output failed"),
        AppendRefusal::Memory => rt.eprintln("nectar_csv: out of memory"),
    }
}

fn tell_header(rt: &HostRuntime, why: &HeaderRefusal) -> io::Result<()> {
    match why {
        HeaderRefusal::Missing { column } => {
            eprintln!(rt;
                "nectar_csv: column {} isn't in the header",
                column.saturating_add(1)
            )
        }
        HeaderRefusal::Repeated { column } => {
            eprintln!(rt;
                "nectar_csv: column {} is twice in the header",
                column.saturating_add(1)
            )
        }
        HeaderRefusal::Memory => rt.eprintln("nectar_csv: out of memory"),
    }
}

fn tell_record(rt: &HostRuntime, number: u64, line: u64, why: &RecordRefusal) -> io::Result<()> {
    match why {
        RecordRefusal::Width => {
            eprintln!(rt;
                "nectar_csv: record {number}, line {line}: another number of fields than the header"
            )
        }
        RecordRefusal::NotOfKind { column } => {
            eprintln!(rt;
                "nectar_csv: record {number}, line {line}, column {}: no value of its kind",
                column.saturating_add(1)
            )
        }
        RecordRefusal::TooLong { column } => {
            eprintln!(rt;
                "nectar_csv: record {number}, line {line}, column {}: a text of more than 1000 bytes",
                column.saturating_add(1)
            )
        }
        RecordRefusal::Memory => rt.eprintln("nectar_csv: out of memory"),
    }
}

fn tell_rows(rt: &HostRuntime, why: &RowsRefusal) -> io::Result<()> {
    match why {
        RowsRefusal::NoResult => rt.eprintln("nectar_csv: no such result"),
        RowsRefusal::Cut => rt.eprintln("nectar_csv: the answers end within the result"),
        RowsRefusal::NotRow { number } => eprintln!(rt;
            "nectar_csv: row {number} of the result is no row"
        ),
        RowsRefusal::Width { number } => {
            eprintln!(rt; "nectar_csv: row {number} has another number of fields")
        }
        RowsRefusal::Input => rt.eprintln("nectar_csv: input failed"),
        RowsRefusal::Output => rt.eprintln("nectar_csv: output failed"),
        RowsRefusal::Memory => rt.eprintln("nectar_csv: out of memory"),
    }
}
