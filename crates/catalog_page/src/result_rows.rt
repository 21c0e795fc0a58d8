//! Rows of kept results.
ghost use Rattle.std.specs.Prelude.{◌≡◌, ◌+◌, ◌++◌, bytes_eq, map, OnOk};
ghost use Rattle.std.specs.List.{find, flat_map};
ghost use Rattle.std.specs.Option.{option_map};
ghost use Rattle.catalog_page.specs.Markup.{written};
ghost use Rattle.catalog_page.specs.Page.{cut_pieces, extents_of, has_key, key_pieces, plan_pieces, program_pieces, result_head};
ghost use Rattle.catalog_page.specs.Page.{result_numbers, result_row, result_rows};
ghost use Rattle.catalog_page.specs.Plain.{kept_of};

use crate::catalogue::{Catalogue, Kept, Keyed, LeafCut, StreamLine};
use crate::fragment::Fragment;
use crate::markup::{Piece, put, put_fragment};
use crate::sums::has_key;
use rows_core::Memory;

/// A row for each kept result, numbered from 1 on.
pub(crate) fn put_results(
    to: &mut Vec<u8>,
    catalogue: &Catalogue,
    programs: &[Keyed],
) -> Result<(), Memory>
    ensures { OnOk result (to.new.items ≡ to.old.items ++ written (result_rows catalogue.now.streams.items
        programs.now catalogue.now.tick 1 (map kept_of catalogue.now.results.items))) }
{
    let mut before = 0;
    for kept in &catalogue.results {
        put_result(to, catalogue, programs, before, kept)?;
        before += 1;
    }
    Ok(())
}

fn put_result(
    to: &mut Vec<u8>,
    catalogue: &Catalogue,
    programs: &[Keyed],
    before: u64,
    kept: &Kept,
) -> Result<(), Memory>
    ensures { OnOk result (to.new.items ≡ to.old.items ++ written (result_row catalogue.now.streams.items
        programs.now catalogue.now.tick (before + 1) (kept_of kept.now))) }
{
    put_result_head(to, before, kept)?;
    put_plan(to, programs, kept)?;
    put_fragment(to, Fragment::Extents)?;
    put_cuts(to, catalogue, kept.cuts.items())?;
    put_result_numbers(to, catalogue.tick, kept)?;
    Ok(())
}

#[tactic(auto, unfolding(crate::specs::Page::result_head))]
fn put_result_head(to: &mut Vec<u8>, before: u64, kept: &Kept) -> Result<(), Memory>
    ensures { OnOk result (to.new.items ≡ to.old.items ++ written (result_head (before + 1) (kept_of kept.now))) }
{
    put(
        to,
        &[
            Piece::Markup(Fragment::Row),
            Piece::Count(u128::from(before) + 1),
            Piece::Markup(Fragment::Id),
            Piece::Count(u128::from(kept.standing.id)),
            Piece::Markup(Fragment::Plan),
        ],
    )
}

// The text and the name of the first program that has its plan, or else the key.
#[tactic(auto, unfolding(crate::specs::Page::plan_pieces))]
fn put_plan(to: &mut Vec<u8>, programs: &[Keyed], kept: &Kept) -> Result<(), Memory>
    ensures { OnOk result (to.new.items ≡ to.old.items ++ written (plan_pieces programs.now (kept_of kept.now))) }
{
    match program_of(programs, kept) {
        Some(program) => put_named(to, program),
        None => put_key(to, kept),
    }
}

fn put_named(to: &mut Vec<u8>, program: &Keyed) -> Result<(), Memory>
    ensures { OnOk result (to.new.items ≡ to.old.items ++ written (program_pieces program.now)) }
{
    put(
        to,
        &[
            Piece::Markup(Fragment::Code),
            Piece::Shown(program.text.items()),
            Piece::Markup(Fragment::CodeEnd),
            Piece::Markup(Fragment::By),
            Piece::Shown(program.name.bytes()),
            Piece::Markup(Fragment::SpanEnd),
        ],
    )
}

fn put_key(to: &mut Vec<u8>, kept: &Kept) -> Result<(), Memory>
    ensures { OnOk result (to.new.items ≡ to.old.items ++ written (key_pieces kept.now.key)) }
{
    put(
        to,
        &[
            Piece::Markup(Fragment::NoProgram),
            Piece::Markup(Fragment::Code),
            Piece::Shown(kept.key.items()),
            Piece::Markup(Fragment::CodeEnd),
        ],
    )
}

fn program_of<'a>(programs: &'a [Keyed], kept: &Kept) -> Option<&'a Keyed>
    ensures { option_map (λ p. p.now) result ≡ find (λ p. has_key p.key (kept_of kept.now)) programs.now }
{
    programs.iter().find(|program| has_key(&program.key, kept))
}

fn put_cuts(to: &mut Vec<u8>, catalogue: &Catalogue, cuts: &[LeafCut]) -> Result<(), Memory>
    ensures { OnOk result (to.new.items ≡ to.old.items ++ written (flat_map (cut_pieces catalogue.now.streams.items) cuts.now)) }
{
    for cut in cuts {
        put_cut(to, catalogue, cut)?;
    }
    Ok(())
}

// The extents of a leaf in words, and as a bar over all of the stream's.
#[tactic(auto, unfolding(crate::specs::Page::cut_pieces))]
fn put_cut(to: &mut Vec<u8>, catalogue: &Catalogue, cut: &LeafCut) -> Result<(), Memory>
    ensures { OnOk result (to.new.items ≡ to.old.items ++ written (cut_pieces catalogue.now.streams.items cut.now)) }
{
    let extents = u128::from(extents_of(&catalogue.streams, cut.stream.bytes()));
    put(
        to,
        &[
            Piece::Markup(Fragment::Cut),
            Piece::Shown(cut.stream.bytes()),
            Piece::Markup(Fragment::Space),
            Piece::Count(u128::from(cut.from)),
            Piece::Markup(Fragment::To),
            Piece::Count(u128::from(cut.to)),
            Piece::Markup(Fragment::Of),
            Piece::Count(extents),
            Piece::Markup(Fragment::Bar),
            Piece::Count(extents.max(1)),
            Piece::Markup(Fragment::BarWhole),
            Piece::Count(extents),
            Piece::Markup(Fragment::BarPart),
            Piece::Count(u128::from(cut.from)),
            Piece::Markup(Fragment::BarWidth),
            Piece::Count(u128::from(cut.to.saturating_sub(cut.from))),
            Piece::Markup(Fragment::BarEnd),
        ],
    )
}

// How many extents the stream of this name has.
fn extents_of(streams: &[StreamLine], name: &[u8]) -> u64
    ensures { result ≡ extents_of streams.now name.now }
{
    match stream_of(streams, name) {
        Some(stream) => stream.extents,
        None => 0,
    }
}

fn stream_of<'a>(streams: &'a [StreamLine], name: &[u8]) -> Option<&'a StreamLine>
    ensures { option_map (λ s. s.now) result ≡ find (λ s. bytes_eq s.name name.now) streams.now }
{
    streams.iter().find(|stream| stream.name.bytes() == name)
}

#[tactic(auto, unfolding(crate::specs::Page::result_numbers))]
fn put_result_numbers(to: &mut Vec<u8>, tick: u32, kept: &Kept) -> Result<(), Memory>
    ensures { OnOk result (to.new.items ≡ to.old.items ++ written (result_numbers tick (kept_of kept.now))) }
{
    let next = u128::from(tick) + 1;
    put(
        to,
        &[
            Piece::Markup(Fragment::Bytes),
            Piece::Count(u128::from(kept.standing.size)),
            Piece::Markup(Fragment::Machine),
            Piece::Count(u128::from(kept.machine)),
            Piece::Markup(Fragment::Uses),
            Piece::Count(u128::from(kept.uses)),
            Piece::Markup(Fragment::SinceUse),
            Piece::Count(next.saturating_sub(u128::from(kept.last))),
            Piece::Markup(Fragment::SinceMaking),
            Piece::Count(next.saturating_sub(u128::from(kept.made))),
            Piece::Markup(Fragment::RowEnd),
        ],
    )
}
