//! What comes behind the rows of a plan's result.
ghost use Rattle.std.specs.Prelude.{◌≡◌, ℕ, List, [], ◌∷◌, ◌++◌, take, drop, Result, Ok};
ghost use Rattle.rows_core.specs.declared.overflow.Overflow.{Overflow};
ghost use Rattle.plan_core.specs.Columns.{Rows};
ghost use Rattle.plan_core.specs.PlainPlan.{PlainPlan, Scan, leaf_count};
ghost use Rattle.rewrite_core.specs.IsRewriting.{OfDistinctChild, OfSides};
ghost use Rattle.growth_laws.specs.Growth.{Added, Made, Extends, IsMade, OfPassedInput};
ghost use Rattle.growth_laws.specs.Making.{nothing_added, new_extents};
ghost use Rattle.growth_laws.specs.Making.{passed_delta, distinct_delta, join_delta};

/// Nothing comes behind the result of a plan on the same lists, and the new rows of its stream behind that
/// of a scan.
pub fn rows_added_to_leaves()
    ensures unchanged { (plan : PlainPlan) (lists : List Rows)
        → Extends plan lists lists (Ok nothing_added) }
    ensures scan { (stream : ℕ) (old new : Rows)
        → Extends (Scan stream) (old ∷ []) ((old ++ new) ∷ []) (Ok (new_extents (new ∷ []))) }
{}

/// Behind the result of a filter and of a projection comes what their operator gives of the rows that come
/// behind that of their input; behind that of a concatenation whose left lists are unchanged, what comes
/// behind that of its right input; and behind that of a distinct what comes behind that of its input and
/// isn't there yet. Each takes in these rows beside what its input takes in more, and is an overflow where
/// its input or the operator on these rows is one.
pub fn rows_added_to_one_input()
    ensures passed { (plan : PlainPlan) (before after : List Rows) (given : Result Added Overflow)
        → OfPassedInput (λ input old new. Extends input old new given) plan before after
        → Extends plan before after (passed_delta plan given) }
    ensures distinct { (plan : PlainPlan) (before after : List Rows) (old : Result Made Overflow)
        (given : Result Added Overflow) → IsMade plan before old
        → OfDistinctChild (λ input. Extends input before after given) plan
        → Extends plan before after (distinct_delta old given) }
{}

/// Behind the result of a join whose right lists are unchanged comes the join of the new left rows with the
/// right ones.
pub fn rows_added_to_joins()
    ensures { (plan : PlainPlan) (before after : List Rows) (given : Result Added Overflow)
        (made : Result Made Overflow)
        → OfSides (λ left right. (drop (leaf_count left) before ≡ drop (leaf_count left) after)
        × Extends left (take (leaf_count left) before) (take (leaf_count left) after) given
        × IsMade right (drop (leaf_count left) after) made) plan
        → Extends plan before after (join_delta plan given made) }
{}
