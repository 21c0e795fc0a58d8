//! The whole page.
ghost use Rattle.std.specs.Prelude.{◌≡◌, ◌++◌, map, IfOk, OnOk};
ghost use Rattle.catalog_page.specs.Markup.{written};
ghost use Rattle.catalog_page.specs.Page.{document, head_pieces};
ghost use Rattle.catalog_page.specs.Plain.{kept_of};

use crate::catalogue::{Catalogue, Keyed};
use crate::fragment::Fragment;
use crate::markup::{Piece, put, put_fragment};
use crate::program_rows::put_programs;
use crate::result_rows::put_results;
use crate::stream_rows::put_streams;
use rows_core::{Memory, Seq, Text};
use std::alloc::Global;

/// The page of a catalogue, over its programs with their keys. A row stands for each stream, each program and each
/// kept result, in the catalogue's order. `Memory` where memory was asked for and refused.
pub(crate) fn page_of(
    alloc: Global,
    catalogue: &Catalogue,
    programs: &[Keyed],
) -> Result<Text, Memory>
    ensures { IfOk result (λ page. page ≡ written (document catalogue.now.streams.items programs.now
        (map kept_of catalogue.now.results.items) catalogue.now.tick)) }
{
    let mut page = Vec::new(alloc);
    put_document(&mut page, catalogue, programs)?;
    Ok(Seq::new(page))
}

fn put_document(to: &mut Vec<u8>, catalogue: &Catalogue, programs: &[Keyed]) -> Result<(), Memory>
    ensures { OnOk result (to.new.items ≡ to.old.items ++ written (document catalogue.now.streams.items programs.now
        (map kept_of catalogue.now.results.items) catalogue.now.tick)) }
{
    put_head(to, catalogue.tick)?;
    put_streams(to, catalogue)?;
    put_fragment(to, Fragment::Programs)?;
    put_programs(to, catalogue, programs)?;
    put_fragment(to, Fragment::Results)?;
    put_results(to, catalogue, programs)?;
    put_fragment(to, Fragment::Foot)?;
    Ok(())
}

#[tactic(auto, unfolding(crate::specs::Page::head_pieces))]
fn put_head(to: &mut Vec<u8>, tick: u32) -> Result<(), Memory>
    ensures { OnOk result (to.new.items ≡ to.old.items ++ written (head_pieces tick)) }
{
    put(
        to,
        &[
            Piece::Markup(Fragment::Head),
            Piece::Markup(Fragment::Tick),
            Piece::Count(u128::from(tick)),
            Piece::Markup(Fragment::Streams),
        ],
    )
}
