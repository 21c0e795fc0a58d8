//! Rows of streams.
ghost use Rattle.std.specs.Prelude.{◌≡◌, ◌++◌, map, OnOk};
ghost use Rattle.std.specs.List.{flat_map};
ghost use Rattle.catalog_page.specs.Markup.{written};
ghost use Rattle.catalog_page.specs.Page.{column_pieces, stream_head, stream_numbers, stream_row};
ghost use Rattle.catalog_page.specs.Plain.{kept_of};

use crate::catalogue::{Catalogue, StreamLine};
use crate::fragment::Fragment;
use crate::markup::{Piece, put};
use crate::sums::bytes_of_stream;
use rows_core::{Column, Memory};

/// A row for each stream.
pub(crate) fn put_streams(to: &mut Vec<u8>, catalogue: &Catalogue) -> Result<(), Memory>
    ensures { OnOk result (to.new.items ≡ to.old.items ++ written (flat_map (stream_row (map kept_of catalogue.now.results.items)) catalogue.now.streams.items)) }
{
    for stream in &catalogue.streams {
        put_stream(to, stream, catalogue)?;
    }
    Ok(())
}

fn put_stream(to: &mut Vec<u8>, stream: &StreamLine, catalogue: &Catalogue) -> Result<(), Memory>
    ensures { OnOk result (to.new.items ≡ to.old.items ++ written (stream_row (map kept_of catalogue.now.results.items) stream.now)) }
{
    put_stream_head(to, stream)?;
    put_columns(to, stream.schema.columns())?;
    put_stream_numbers(to, stream, catalogue)?;
    Ok(())
}

#[tactic(auto, unfolding(crate::specs::Page::stream_head))]
fn put_stream_head(to: &mut Vec<u8>, stream: &StreamLine) -> Result<(), Memory>
    ensures { OnOk result (to.new.items ≡ to.old.items ++ written (stream_head stream.now)) }
{
    put(
        to,
        &[
            Piece::Markup(Fragment::Row),
            Piece::Shown(stream.name.bytes()),
            Piece::Markup(Fragment::Columns),
        ],
    )
}

fn put_columns(to: &mut Vec<u8>, columns: &[Column]) -> Result<(), Memory>
    ensures { OnOk result (to.new.items ≡ to.old.items ++ written (flat_map column_pieces columns.now)) }
{
    for column in columns {
        put_column(to, column)?;
    }
    Ok(())
}

fn put_column(to: &mut Vec<u8>, column: &Column) -> Result<(), Memory>
    ensures { OnOk result (to.new.items ≡ to.old.items ++ written (column_pieces column.now)) }
{
    put(
        to,
        &[
            Piece::Markup(Fragment::Column),
            Piece::Shown(column.name.bytes()),
            Piece::Markup(Fragment::Space),
            Piece::Shown(column.kind.word()),
            Piece::Markup(Fragment::SpanEnd),
        ],
    )
}

#[tactic(auto, unfolding(crate::specs::Page::stream_numbers))]
fn put_stream_numbers(
    to: &mut Vec<u8>,
    stream: &StreamLine,
    catalogue: &Catalogue,
) -> Result<(), Memory>
    ensures { OnOk result (to.new.items ≡ to.old.items ++ written (stream_numbers (map kept_of catalogue.now.results.items) stream.now)) }
{
    let bytes = bytes_of_stream(&catalogue.results, stream.name.bytes());
    put(
        to,
        &[
            Piece::Markup(Fragment::Extents),
            Piece::Count(u128::from(stream.extents)),
            Piece::Markup(Fragment::Rows),
            Piece::Count(u128::from(stream.rows)),
            Piece::Markup(Fragment::BytesKept),
            Piece::Count(bytes),
            Piece::Markup(Fragment::RowEnd),
        ],
    )
}
