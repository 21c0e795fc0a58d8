//! Joins that have grown.
ghost use Rattle.std.specs.Prelude.{◌≡◌, ℕ, ◌<◌, ◌≤◌, ◌+◌};
ghost use Rattle.std.specs.Prelude.{◌++◌, List, length, IfOk};
ghost use Rattle.row_blob.specs.declared.kept.Kept.TheVariants as kept;
ghost use Rattle.plan_core.specs.PlainPlan.{plan_of};
ghost use Rattle.plan_laws.specs.GrowthOfJoins.{AscendsByPosition};
ghost use Rattle.rewrite_core.specs.IsRewriting.{OfSides};
ghost use Rattle.growth_laws.specs.Making.{taken_in_of, made_of_left, made_of_right, made_of_both};
ghost use Rattle.growth_laws.specs.Making.{with_new_lefts, with_new_rights, left_length, kept_tagged};
ghost use Rattle.result_ops.specs.Bounds.{limit, IsBounded};
ghost use Rattle.result_ops.specs.Fitting.{IsReadable, StandsInOrder};
ghost use Rattle.result_ops.specs.Steps.{made_of, added_of, Makes, MakesGrown, Positions};

use crate::grown::grown_input;
use crate::made::{Added, Input, Made};
use crate::refusal::MakeRefusal;
use crate::rows::rows_of;
use join_ops::{join_tagged, merge_tagged};
use plan_core::Plan;
use row_blob::{Kept, TaggedRow};
use rows_core::limits::MAX_ROWS;
use rows_core::{Memory, Row, Seq};
use std::alloc::Global;

/// What is made of a join's earlier result and of the rows that came behind those of its left input: the old
/// rows, and then the join of the new left rows with the right ones, counted on. `Machine` comes only where
/// the machine time is above its limit, or the left length, which it never is below that.
pub fn made_of_left(
    alloc: Global,
    plan: &Plan,
    old: Made,
    added: Added,
    right: Made,
) -> Result<Made, MakeRefusal>
    requires old { IsReadable (plan_of plan.now) old.kept }
    requires ordered { StandsInOrder old.kept }
    requires right { OfSides (λ first second. IsReadable second right.kept) (plan_of plan.now) }
    ensures { MakesGrown (old.taken_in + taken_in_of (added_of added)) (plan_of plan.now)
        (made_of_left (plan_of plan.now) (made_of old) (added_of added) (made_of right)) result }
{
    let Plan::Join {
        left: _,
        right: second,
        on,
    } = plan
    else {
        unreachable!()
    };
    let rights = rows_of(alloc, second, right.kept)?;
    let Input { rows, taken_in } = grown_input(added, old.taken_in)?;
    let (first, tagged) = tagged_in(alloc, old.kept);
    let kept = with_new_lefts(alloc, first, tagged, &rows, &rights, on.items())?;
    Ok(Made { kept, taken_in })
}

/// What is made of a join's earlier result, of its left input's and of the rows that came behind those of its
/// right input: the old rows and the join of the left rows with the new right ones, by the position of the
/// left row.
pub fn made_of_right(
    alloc: Global,
    plan: &Plan,
    old: Made,
    left: Made,
    added: Added,
) -> Result<Made, MakeRefusal>
    requires old { IsReadable (plan_of plan.now) old.kept }
    requires ordered { StandsInOrder old.kept }
    requires left { OfSides (λ first second. IsReadable first left.kept) (plan_of plan.now) }
    ensures { Makes (limit ≤ old.taken_in + taken_in_of (added_of added)) (plan_of plan.now)
        (made_of_right (plan_of plan.now) (made_of old) (made_of left) (added_of added)) result }
{
    let Plan::Join {
        left: first,
        right: _,
        on,
    } = plan
    else {
        unreachable!()
    };
    let lefts = rows_of(alloc, first, left.kept)?;
    let Input { rows, taken_in } = grown_input(added, old.taken_in)?;
    let (count, tagged) = tagged_in(alloc, old.kept);
    let tagged = with_new_rights(alloc, tagged, &lefts, &rows, on.items())?;
    Ok(made_of_tagged(count, tagged, taken_in))
}

fn made_of_tagged(left: u64, rows: Vec<TaggedRow>, taken_in: u64) -> Made
    ensures kept { result.kept ≡ kept.Tagged left rows.items }
    ensures taken_in { result.taken_in ≡ taken_in }
{
    Made {
        kept: Kept::Tagged {
            left,
            rows: Seq::new(rows),
        },
        taken_in,
    }
}

// The left length and the rows of what is kept of a join.
fn tagged_in(alloc: Global, kept: Kept) -> (u64, Vec<TaggedRow>)
    ensures count { result.0 ≡ left_length kept }
    ensures rows { result.1.items ≡ kept_tagged kept }
{
    match kept {
        Kept::Tagged { left, rows } => (left, rows.into_vec()),
        _ => (0, Vec::new(alloc)),
    }
}

// The old rows, and then the join of the new left rows with the right ones, counted on from the old left
// ones. `Machine` exactly where there are more left rows than a position counts.
fn with_new_lefts(
    alloc: Global,
    first: u64,
    tagged: Vec<TaggedRow>,
    news: &[Row],
    rights: &[Row],
    on: &[(u32, u32)],
) -> Result<Kept, MakeRefusal>
    ensures { Positions (with_new_lefts on.now first tagged.items news.now rights.now)
        (first + length news.now) result }
{
    let lefts = first.saturating_add(news.len() as u64);
    if lefts > MAX_ROWS {
        return Err(MakeRefusal::Machine);
    }
    let joined = join_tagged(alloc, news, rights, on, first)?;
    let rows = tagged_behind(tagged, joined)?;
    Ok(Kept::Tagged {
        left: lefts,
        rows: Seq::new(rows),
    })
}

// The rows, and then the others.
fn tagged_behind(
    tagged: Vec<TaggedRow>,
    mut others: Vec<TaggedRow>,
) -> Result<Vec<TaggedRow>, Memory>
    ensures { IfOk result (λ rows. rows.items ≡ tagged.items ++ others.items) }
{
    let mut rows = tagged;
    rows.append(&mut others)?;
    Ok(rows)
}

// The old rows and the join of the left rows with the new right ones, by the position of the left row.
fn with_new_rights(
    alloc: Global,
    tagged: Vec<TaggedRow>,
    lefts: &[Row],
    news: &[Row],
    on: &[(u32, u32)],
) -> Result<Vec<TaggedRow>, Memory>
    requires { AscendsByPosition tagged.items }
    ensures { IfOk result (λ rows. rows.items ≡ with_new_rights on.now tagged.items lefts.now news.now) }
{
    let joined = join_tagged(alloc, lefts, news, on, 0)?;
    merge_tagged(alloc, tagged, joined)
}

/// What is made of a join's earlier result, of its old left input's and its right input's, and of the rows
/// that came behind those of both: the old left rows with all right ones, by the position of the left row,
/// and then the new left rows with all right ones.
pub fn made_of_both(
    alloc: Global,
    plan: &Plan,
    old: Made,
    old_left: Made,
    right_added: Added,
    left_added: Added,
    right: Made,
) -> Result<Made, MakeRefusal>
    requires old { IsReadable (plan_of plan.now) old.kept }
    requires ordered { StandsInOrder old.kept }
    requires left { OfSides (λ first second. IsReadable first old_left.kept) (plan_of plan.now) }
    requires right { OfSides (λ first second. IsReadable second right.kept) (plan_of plan.now) }
    ensures { MakesGrown
        (old.taken_in + (taken_in_of (added_of left_added) + taken_in_of (added_of right_added)))
        (plan_of plan.now)
        (made_of_both (plan_of plan.now) (made_of old) (made_of old_left) (added_of right_added)
        (added_of left_added) (made_of right)) result }
{
    let Plan::Join {
        left: first,
        right: second,
        on,
    } = plan
    else {
        unreachable!()
    };
    let lefts = rows_of(alloc, first, old_left.kept)?;
    let rights = rows_of(alloc, second, right.kept)?;
    let new_rights = grown_input(right_added, old.taken_in)?;
    let new_lefts = grown_input(left_added, new_rights.taken_in)?;
    let (count, tagged) = tagged_in(alloc, old.kept);
    let tagged = with_new_rights(alloc, tagged, &lefts, &new_rights.rows, on.items())?;
    let kept = with_new_lefts(alloc, count, tagged, &new_lefts.rows, &rights, on.items())?;
    Ok(Made {
        kept,
        taken_in: new_lefts.taken_in,
    })
}
