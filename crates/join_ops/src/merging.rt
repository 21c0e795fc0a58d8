//! The rows of a join and those that have come.
ghost use Rattle.std.specs.Prelude.{◌≡◌, ◌≤◌, ℕ, ◌+◌, List, ◌++◌, length, All, IfOk};
ghost use Rattle.plan_core.specs.Columns.{Rows};
ghost use Rattle.plan_laws.specs.GrowthOfJoins.{AscendsByPosition, IsMergedByPosition, merge_by_position};
ghost use Rattle.plan_laws.specs.KeptForm.{tagged_from};

use plan_laws::one_merge_by_position;
use row_blob::TaggedRow;
use rows_core::Memory;
use std::alloc::Global;

/// The rows of both lists by the positions of their left rows, the old ones first where these are equal: what
/// a join gives with a longer right list, where the new rows are those with the right rows that have come.
/// Both lists ascend by position. It copies no row.
pub fn merge_tagged(
    alloc: Global,
    old: Vec<TaggedRow>,
    new: Vec<TaggedRow>,
) -> Result<Vec<TaggedRow>, Memory>
    requires old { AscendsByPosition old.items }
    requires new { AscendsByPosition new.items }
    ensures merged { IfOk result (λ merged. IsMergedByPosition old.items new.items merged.items) }
    ensures joins { IfOk result (λ merged. (first : ℕ) (on : List (ℕ × ℕ)) (lefts rights more : Rows)
        → old.items ≡ tagged_from first on lefts rights → new.items ≡ tagged_from first on lefts more
        → merged.items ≡ tagged_from first on lefts (rights ++ more)) }
{
    let merged = merge_rows(old, new)?;
    Ok(merged)
}

/// The one stable order of both by position: std's sort merges the two in one pass.
fn merge_rows(old: Vec<TaggedRow>, new: Vec<TaggedRow>) -> Result<Vec<TaggedRow>, Memory>
    requires old { AscendsByPosition old.items }
    requires new { AscendsByPosition new.items }
    ensures { IfOk result (λ merged. merged.items ≡ merge_by_position old.items new.items) }
{
    one_merge_by_position();
    let mut rows = old;
    let mut others = new;
    rows.append(&mut others)?;
    rows.sort_by(|a, b| a.left.cmp(&b.left))?;
    Ok(rows)
}

/// The rows of both lists, the old ones first: what a join gives with a longer left list, where the new rows
/// are those of the left rows that have come. No position of the new rows is below one of the old ones.
pub fn append_tagged(
    alloc: Global,
    old: Vec<TaggedRow>,
    new: Vec<TaggedRow>,
) -> Result<Vec<TaggedRow>, Memory>
    requires { All (λ a. All (λ b. a.left ≤ b.left) new.items) old.items }
    ensures rows { IfOk result (λ rows. rows.items ≡ old.items ++ new.items) }
    ensures joins { IfOk result (λ rows. (first : ℕ) (on : List (ℕ × ℕ)) (lefts more rights : Rows)
        → old.items ≡ tagged_from first on lefts rights
        → new.items ≡ tagged_from (first + length lefts) on more rights
        → rows.items ≡ tagged_from first on (lefts ++ more) rights) }
{
    let mut rows = old;
    let mut others = new;
    rows.append(&mut others)?;
    Ok(rows)
}
