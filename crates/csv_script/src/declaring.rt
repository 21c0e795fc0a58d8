//! The line that makes a stream.
ghost use Rattle.std.specs.Prelude.{◌∷◌, OnOk};
ghost use Rattle.std.specs.Io.KnownBytes.{Appends};
ghost use Rattle.csv_script.specs.Blocks.{column_text, columns_text, ended, more_text, stream_text};

use rows_core::{Column, Name};
use std::io;
use std::io::Write;

/// Writes the line that makes the stream.
pub fn declare<W: Write>(name: &Name, columns: &[Column], script: &mut W) -> io::Result<()>
    ensures { OnOk result (Appends (W.contents script.old) (W.contents script.new)
        (ended (stream_text name.now columns.now))) }
{
    script.write_all(b"stream ")?;
    script.write_all(name.bytes())?;
    script.write_all(b"(")?;
    write_columns(columns, script)?;
    script.write_all(b")\n")
}

fn write_columns<W: Write>(columns: &[Column], script: &mut W) -> io::Result<()>
    ensures { OnOk result (Appends (W.contents script.old) (W.contents script.new) (columns_text columns.now)) }
{
    let [first, others @ ..] = columns else {
        return Ok(());
    };
    write_column(first, script)?;
    write_more(others, script)
}

// Writes each column behind a comma.
fn write_more<W: Write>(columns: &[Column], script: &mut W) -> io::Result<()>
    ensures { OnOk result (Appends (W.contents script.old) (W.contents script.new) (more_text columns.now)) }
{
    for column in columns {
        write_next(column, script)?;
    }
    Ok(())
}

fn write_next<W: Write>(column: &Column, script: &mut W) -> io::Result<()>
    ensures { OnOk result (Appends (W.contents script.old) (W.contents script.new) (44 ∷ column_text column.now)) }
{
    script.write_all(b",")?;
    write_column(column, script)
}

fn write_column<W: Write>(column: &Column, script: &mut W) -> io::Result<()>
    ensures { OnOk result (Appends (W.contents script.old) (W.contents script.new) (column_text column.now)) }
{
    script.write_all(column.name.bytes())?;
    script.write_all(b":")?;
    script.write_all(column.kind.word())
}
