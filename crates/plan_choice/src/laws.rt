//! Laws of rewritings that are taken, and of those that serve. Each is a function that does nothing, whose
//! contract is the law.
ghost use Rattle.std.specs.Prelude.{◌≡◌, ◌≤◌, ℕ, [], List, length, IsOk};
ghost use Rattle.std.specs.List.{AllByRecursion};
ghost use Rattle.plan_core.specs.Nesting.{expr_count, node_count, nesting};
ghost use Rattle.plan_core.specs.PlainPlan.{PlainPlan, leaves, leaf_count};
ghost use Rattle.plan_core.specs.PlanTyping.{plan_typing};
ghost use Rattle.plan_canon.specs.Normal.{IsNormal, MeanTheSame};
ghost use Rattle.estimator.specs.Cuts.{Cuts};
ghost use Rattle.rewrite_core.specs.Files.{AreIdsOf, files_of};
ghost use Rattle.rewrite_core.specs.IsRewriting.{IsRewriting, among, whichever};
ghost use Rattle.rewrite_core.specs.PlainRewriting.{PlainRewriting};
ghost use Rattle.growth_laws.specs.Pieces.{pieces_of};
ghost use Rattle.rewriter.specs.Reads.{reads_of};
ghost use Rattle.cache_index.specs.Asked.{asked};
ghost use Rattle.entry_table.specs.Ids as kept;
ghost use Rattle.catalog_core.specs.IsTable.{IsTable};
ghost use Rattle.catalog_core.specs.Named.{HasFile, lengths_of, bytes_named};
ghost use Rattle.catalog_core.specs.Programs.{kinds_of_streams, AreCuts};
ghost use Rattle.catalog_core.specs.Results.{IsOver};
ghost use Rattle.catalog_core.specs.Table.{Table};
ghost use Rattle.plan_choice.specs.Leaving.{leaving_out};
ghost use Rattle.plan_choice.specs.Pieces.{IsPieceOf};
ghost use Rattle.plan_choice.specs.Taken.{IsTaken, Serves};

use crate::leaving::results_are_left_out;
use catalog_core::{cuts_of_tables, kept_results_of_tables};
use growth_laws::files_of_pieces;
use plan_canon::laws::{normal_plans_are_not_deep, normal_plans_mean_the_same};
use rewriter::laws::rewritings_are_formed;

/// The bytes that a rewriting over the kept results of a table reads are those of the files that it names.
pub fn bytes_of_named_files()
    ensures { (t : Table) (plan : PlainPlan) (cuts : Cuts) (r : PlainRewriting) → IsTable t
        → IsRewriting (among (asked [] t.entries)) plan cuts r → AreCuts t.streams (leaves plan) cuts
        → reads_of (lengths_of t.streams) r ≡ bytes_named t (files_of r) }
{
    rewritings_are_formed();
    kept_results_of_tables();
    cuts_of_tables();
}

/// A rewriting that is taken of a plan serves for it, and goes on serving as other results are kept. One that serves
/// where some kept results are left out serves where they aren't.
pub fn taken_rewritings()
    ensures serves { (t : Table) (plan normal : PlainPlan) (cuts : Cuts) (r : PlainRewriting)
        → IsTaken t plan normal cuts r → Serves t plan normal cuts r }
    ensures more { (t : Table) (left_out : List ℕ) (plan normal : PlainPlan) (cuts : Cuts)
        (r : PlainRewriting) → Serves (leaving_out left_out t) plan normal cuts r
        → Serves t plan normal cuts r }
{
    results_are_left_out();
}

/// A rewriting that serves for a plan is well formed, of a normal plan with the plan's leaves that is typed
/// over the streams, where the plan is, and means the same. Where the plan is within the limits of written
/// plans, the normal plan is not deep. Each of its pieces is a kept result with its plan, or extents that are
/// there; so the files that it names are there, and the ids that it reads are of kept results, few enough,
/// and ascend.
pub fn serving_rewritings()
    ensures formed { (t : Table) (plan normal : PlainPlan) (cuts : Cuts) (r : PlainRewriting) → IsTable t
        → Serves t plan normal cuts r → IsRewriting whichever normal cuts r }
    ensures over { (t : Table) (plan normal : PlainPlan) (cuts : Cuts) (r : PlainRewriting)
        → Serves t plan normal cuts r → IsOk (plan_typing (kinds_of_streams t.streams) plan)
        → AreCuts t.streams (leaves plan) cuts → IsOver t.streams normal cuts }
    ensures length { (t : Table) (plan normal : PlainPlan) (cuts : Cuts) (r : PlainRewriting)
        → Serves t plan normal cuts r → AreCuts t.streams (leaves plan) cuts
        → length cuts ≡ leaf_count normal }
    ensures leaves { (t : Table) (plan normal : PlainPlan) (cuts : Cuts) (r : PlainRewriting)
        → Serves t plan normal cuts r → leaves normal ≡ leaves plan }
    ensures normal { (t : Table) (plan normal : PlainPlan) (cuts : Cuts) (r : PlainRewriting)
        → Serves t plan normal cuts r → IsNormal (kinds_of_streams t.streams) normal }
    ensures meaning { (t : Table) (plan normal : PlainPlan) (cuts : Cuts) (r : PlainRewriting)
        → Serves t plan normal cuts r → IsOk (plan_typing (kinds_of_streams t.streams) plan)
        → MeanTheSame (kinds_of_streams t.streams) plan normal }
    ensures deep { (t : Table) (plan normal : PlainPlan) (cuts : Cuts) (r : PlainRewriting)
        → Serves t plan normal cuts r → node_count plan ≤ 40 → expr_count plan ≤ 512
        → nesting normal ≤ 1024 }
    ensures pieces { (t : Table) (plan normal : PlainPlan) (cuts : Cuts) (r : PlainRewriting) → IsTable t
        → Serves t plan normal cuts r → AreCuts t.streams (leaves plan) cuts
        → AllByRecursion (IsPieceOf t) (pieces_of r) }
    ensures there { (t : Table) (plan normal : PlainPlan) (cuts : Cuts) (r : PlainRewriting) → IsTable t
        → Serves t plan normal cuts r → AreCuts t.streams (leaves plan) cuts
        → AllByRecursion (HasFile t) (files_of r) }
    ensures ids { (t : Table) (plan normal : PlainPlan) (cuts : Cuts) (r : PlainRewriting) (ids : List ℕ)
        → IsTable t → Serves t plan normal cuts r → AreCuts t.streams (leaves plan) cuts
        → AreIdsOf (files_of r) ids → kept.AreIdsOf t.entries ids }
    ensures few { (t : Table) (plan normal : PlainPlan) (cuts : Cuts) (r : PlainRewriting) (ids : List ℕ)
        → IsTable t → Serves t plan normal cuts r → AreCuts t.streams (leaves plan) cuts
        → AreIdsOf (files_of r) ids → length ids ≤ 4096 }
{
    normal_plans_mean_the_same();
    normal_plans_are_not_deep();
    files_of_pieces();
    kept_results_of_tables();
    cuts_of_tables();
}
