//! The program that a plan is stored as.
ghost use Rattle.std.specs.Prelude.{◌≡◌, ◌<◌, ◌≤◌, Ok, Err, IfOk, IfSome, IfNone, length, map, nat_lt};
ghost use Rattle.plan_text.specs.Spelled.{SpellsText};
ghost use Rattle.plan_text.specs.Canonical.{canonical_text};
ghost use Rattle.catalog_core.specs.Catalogs.{table_of};
ghost use Rattle.catalog_core.specs.Programs.{most_text_bytes, with_program, below, above};
ghost use Rattle.catalog_core.specs.Streams.{states_of};
ghost use Rattle.rows_core.specs.Limits.{most_ticks, most_programs};
ghost use Rattle.script_text.specs.declared.answer.Refusal.TheVariants.{Limit};
ghost use Rattle.planning.specs.Running.{Run, storing, whole_cut};

use crate::extents::extents_at;
use catalog_core::{Catalog, CatalogStream, is_below, know_table};
use catalog_types::Program;
use plan_text::{NamedPlan, print_plan};
use rows_core::limits::MAX_TICKS;
use rows_core::{Cut, Memory, Name, Seq};
use script_text::LimitKind;
use std::alloc::Global;

/// The most bytes of a program's text.
const MAX_TEXT_BYTES: usize = 65_536;

/// The most programs.
const MAX_PROGRAMS: usize = 1_024;

// The program of this plan, whose leaves are these streams, over all of their extents.
pub(crate) fn program_of(
    alloc: Global,
    streams: &[CatalogStream],
    name: Name,
    plan: &NamedPlan,
    leaves: &[u32],
) -> Result<Program, Memory>
    ensures name { IfOk result (λ program. program.name ≡ name) }
    ensures text { IfOk result (λ program. program.text ≡ canonical_text plan.now) }
    ensures spells { IfOk result (λ program. SpellsText plan.now program.text) }
    ensures cuts { IfOk result (λ program. program.cuts
        ≡ map (whole_cut (states_of streams.now)) leaves.now) }
{
    let text = print_plan(alloc, plan)?;
    let cuts = whole_cuts(alloc, streams, leaves)?;
    Ok(Program {
        name,
        text: Seq::new(text),
        cuts: Seq::new(cuts),
    })
}

/// For each leaf all extents that its stream has now.
pub(crate) fn whole_cuts(
    alloc: Global,
    streams: &[CatalogStream],
    leaves: &[u32],
) -> Result<Vec<Cut>, Memory>
    ensures { IfOk result (λ cuts. cuts.items ≡ map (whole_cut (states_of streams.now)) leaves.now) }
{
    let mut cuts = Vec::with_capacity(alloc, leaves.len())?;
    for leaf in leaves {
        cuts.push(whole_cut(streams, *leaf))?;
    }
    Ok(cuts)
}

fn whole_cut(streams: &[CatalogStream], leaf: u32) -> Cut
    ensures { result ≡ whole_cut (states_of streams.now) leaf }
{
    Cut {
        from: 0,
        to: extents_at(streams, leaf).len() as u32,
    }
}

// Whether the program's text has more bytes than it may.
pub(crate) fn is_long(program: &Program) -> bool
    ensures { result ≡ nat_lt most_text_bytes (length program.now.text) }
{
    program.text.items().len() > MAX_TEXT_BYTES
}

// The first limit that the storing of this program passes.
pub(crate) fn limit_of_program(catalog: &Catalog, program: &Program) -> Option<LimitKind>
    ensures some { (run : Run) → run.program ≡ program.now → IfSome result (λ kind.
        storing (table_of catalog.now) run ≡ Err (Limit kind)) }
    ensures none { (run : Run) → run.program ≡ program.now → IfNone result
        (storing (table_of catalog.now) run ≡ Ok run) }
    ensures text { IfNone result (length program.now.text ≤ 65536) }
    ensures programs { IfNone result
        (length (with_program program.now (table_of catalog.now).programs) ≤ most_programs) }
    ensures counted { IfNone result ((table_of catalog.now).tick < most_ticks) }
{
    if is_long(program) {
        return Some(LimitKind::PlanText);
    }
    know_table(catalog);
    let programs = catalog.programs();
    if count_below(programs, &program.name) + count_above(programs, &program.name) >= MAX_PROGRAMS {
        return Some(LimitKind::Programs);
    }
    if catalog.tick() >= MAX_TICKS {
        return Some(LimitKind::Commands);
    }
    None
}

// The number of programs whose names are below this one.
fn count_below(programs: &[Program], name: &Name) -> usize
    ensures { result ≡ length (below name.now programs.now) }
{
    programs
        .iter()
        .filter(|program| is_below(&program.name, name))
        .count()
}

// The number of programs whose names are above this one.
fn count_above(programs: &[Program], name: &Name) -> usize
    ensures { result ≡ length (above name.now programs.now) }
{
    programs
        .iter()
        .filter(|program| is_below(name, &program.name))
        .count()
}
