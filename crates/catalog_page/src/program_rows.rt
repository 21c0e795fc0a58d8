//! Rows of programs.
ghost use Rattle.std.specs.Prelude.{◌≡◌, ◌++◌, map, OnOk};
ghost use Rattle.std.specs.List.{flat_map};
ghost use Rattle.catalog_page.specs.Markup.{written};
ghost use Rattle.catalog_page.specs.Page.{program_row};
ghost use Rattle.catalog_page.specs.Plain.{kept_of};

use crate::catalogue::{Catalogue, Keyed};
use crate::fragment::Fragment;
use crate::markup::{Piece, put};
use crate::sums::bytes_of_program;
use rows_core::Memory;

/// A row for each program.
pub(crate) fn put_programs(
    to: &mut Vec<u8>,
    catalogue: &Catalogue,
    programs: &[Keyed],
) -> Result<(), Memory>
    ensures { OnOk result (to.new.items ≡ to.old.items ++ written (flat_map (program_row (map kept_of catalogue.now.results.items)) programs.now)) }
{
    for program in programs {
        put_program(to, catalogue, program)?;
    }
    Ok(())
}

#[tactic(auto, unfolding(crate::specs::Page::program_row))]
fn put_program(to: &mut Vec<u8>, catalogue: &Catalogue, program: &Keyed) -> Result<(), Memory>
    ensures { OnOk result (to.new.items ≡ to.old.items ++ written (program_row (map kept_of catalogue.now.results.items) program.now)) }
{
    let bytes = bytes_of_program(&catalogue.results, &program.key);
    put(
        to,
        &[
            Piece::Markup(Fragment::Row),
            Piece::Shown(program.name.bytes()),
            Piece::Markup(Fragment::ProgramPlan),
            Piece::Markup(Fragment::Code),
            Piece::Shown(program.text.items()),
            Piece::Markup(Fragment::CodeEnd),
            Piece::Markup(Fragment::BytesKept),
            Piece::Count(bytes),
            Piece::Markup(Fragment::RowEnd),
        ],
    )
}
