//! The rewriting that a run takes.
ghost use Rattle.std.specs.Prelude.{◌≡◌, IfOk};
ghost use Rattle.plan_core.specs.Literals.{HasValidLiterals};
ghost use Rattle.plan_core.specs.PlainPlan.{PlainPlan, plan_of, leaves};
ghost use Rattle.plan_core.specs.TypedPlan.{IsTypedOver};
ghost use Rattle.plan_spelling.specs.Spelling.{HasPlanSpelling};
ghost use Rattle.plan_canon.specs.Normal.{IsNormalFormOf};
ghost use Rattle.rewrite_core.specs.Estimate.{IsLeast};
ghost use Rattle.rewrite_core.specs.PlainRewriting.{rewriting_of};
ghost use Rattle.cache_index.specs.Asked.{asked};
ghost use Rattle.catalog_core.specs.Catalogs.{table_of};
ghost use Rattle.catalog_core.specs.Named.{lengths_of};
ghost use Rattle.catalog_core.specs.Programs.{kinds_of_streams, AreCuts};
ghost use Rattle.plan_choice.specs.Leaving.{leaving_out};
ghost use Rattle.plan_choice.specs.Taken.{IsChoice};

use crate::laws::bytes_of_named_files;
use crate::leaving::results_are_left_out;
use catalog_core::{Catalog, cuts_of_tables, kept_results_of_tables};
use plan_canon::canon;
use plan_core::Typed;
use plan_spelling::typed_plan_has_spelling;
use rewrite_core::Rewriting;
use rewriter::{least, reads};
use rows_core::{Cut, Memory};
use std::alloc::Global;

/// What a run takes of a plan.
#[derive(Drop)]
pub struct Choice {
    /// Of the plan's normal form.
    pub rewriting: Rewriting,
    /// The ids of the kept results that it reads, ascending, each once.
    pub used: Vec<u32>,
    /// The bytes of the files that it names, each as often as it is named, cut at the greatest u64.
    pub read: u64,
}

/// What is taken of a plan at a cut of a catalogue's streams: of its normal form a rewriting over the
/// catalogue's kept results of which none has a smaller estimate. The normal plan has a spelling and valid
/// literals. `Memory` where memory was asked for and refused.
pub fn choose(alloc: Global, catalog: &Catalog, plan: Typed, cuts: &[Cut]) -> Result<Choice, Memory>
    requires typed { IsTypedOver (kinds_of_streams (table_of catalog.now).streams) plan }
    requires cuts { AreCuts (table_of catalog.now).streams (leaves plan.plan) cuts.now }
    ensures chosen { IfOk result (IsChoice (table_of catalog.now) plan.plan cuts.now) }
    ensures spelled { IfOk result (λ choice. HasPlanSpelling (plan_of choice.rewriting.plan)) }
    ensures literals { IfOk result (λ choice. HasValidLiterals (plan_of choice.rewriting.plan)) }
{
    results_are_left_out();
    let normal = normal_form(alloc, catalog, plan)?;
    choose_without(alloc, catalog, &normal, cuts, &[])
}

/// What is taken of a plan, whose normal form this is, where the kept results with these ids are left out: of the
/// normal form a rewriting over the others of which none has a smaller estimate. `Memory` where memory was
/// asked for and refused.
pub fn choose_without(
    alloc: Global,
    catalog: &Catalog,
    normal: &Typed,
    cuts: &[Cut],
    left_out: &[u32],
) -> Result<Choice, Memory>
    requires { AreCuts (table_of catalog.now).streams (leaves normal.now.plan) cuts.now }
    ensures chosen { IfOk result (λ choice. (plan : PlainPlan)
        → IsNormalFormOf (kinds_of_streams (table_of catalog.now).streams) plan normal.now.plan
        → IsChoice (leaving_out left_out.now (table_of catalog.now)) plan cuts.now choice) }
    ensures form { IfOk result (λ choice. plan_of choice.rewriting.plan ≡ normal.now.plan) }
    ensures spelled { IfOk result (λ choice. HasPlanSpelling (plan_of choice.rewriting.plan)) }
    ensures literals { IfOk result (λ choice. HasValidLiterals (plan_of choice.rewriting.plan)) }
{
    bytes_of_named_files();
    cuts_of_tables();
    results_are_left_out();
    kept_results_of_tables();
    typed_plan_has_spelling(normal);
    know_literals(normal);
    let rewriting = cheapest(alloc, catalog, normal, cuts, left_out)?;
    let used = rewriting.used(alloc)?;
    let read = reads(&rewriting, catalog);
    Ok(Choice {
        rewriting,
        used,
        read,
    })
}

/// The normal form of a plan over a catalogue's streams. `Memory` where memory was asked for and refused.
pub fn normal_form(alloc: Global, catalog: &Catalog, plan: Typed) -> Result<Typed, Memory>
    requires { IsTypedOver (kinds_of_streams (table_of catalog.now).streams) plan }
    ensures { IfOk result (λ normal.
        IsNormalFormOf (kinds_of_streams (table_of catalog.now).streams) plan.plan normal.plan) }
{
    canon(alloc, plan, catalog.schemas())
}

// A rewriting of the plan over the catalogue's kept results, but those that are left out, of which none has a
// smaller estimate.
fn cheapest(
    alloc: Global,
    catalog: &Catalog,
    plan: &Typed,
    cuts: &[Cut],
    left_out: &[u32],
) -> Result<Rewriting, Memory>
    requires { AreCuts (table_of catalog.now).streams (leaves plan.now.plan) cuts.now }
    ensures { IfOk result (λ rewriting. IsLeast (asked left_out.now (table_of catalog.now).entries)
        (lengths_of (table_of catalog.now).streams) plan.now.plan cuts.now (rewriting_of rewriting)) }
{
    cuts_of_tables();
    least(alloc, plan, cuts, &catalog.results(left_out), catalog)
}

// The literals of a plan with a typing are valid, which its type says.
fn know_literals(typed: &Typed)
    ensures { HasValidLiterals typed.now.plan }
{
    let _ = typed.leaves();
}
