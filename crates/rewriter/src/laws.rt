//! Least parts give a least tree of each form, and the least of the three forms is the least of all.
ghost use Rattle.std.specs.Prelude.{◌≡◌, ◌≢◌, ◌≤◌};
ghost use Rattle.plan_core.specs.PlainPlan.{PlainPlan};
ghost use Rattle.estimator.specs.Bytes.{Lengths};
ghost use Rattle.estimator.specs.Cuts.{Cuts};
ghost use Rattle.rewrite_core.specs.declared.rewriting.Hit.{Hit};
ghost use Rattle.rewrite_core.specs.Entries.{Entries, AreSound, IsWhole, IsEarlier};
ghost use Rattle.rewrite_core.specs.Estimate.{estimate_of, IsLeast, IsLeastDelta};
ghost use Rattle.rewrite_core.specs.IsRewriting.{IsRewriting, among, whichever, IsScan, IsLonger, lefts};
ghost use Rattle.rewrite_core.specs.IsRewriting.{rights};
ghost use Rattle.rewrite_core.specs.PlainRewriting.{PlainRewriting, Node, Scan, One, Two, Read, Tail};
ghost use Rattle.rewrite_core.specs.PlainRewriting.{LeftGrew, RightGrew, BothGrew, PlainDelta, Change};
ghost use Rattle.rewrite_core.specs.PlainRewriting.{Unchanged, NewRows, OfChild, OfDistinct, OfJoin};
ghost use Rattle.rewriter.specs.Forms.{way_in, IsComputed, IsRead, IsGrown, IsLeastOf};
ghost use Rattle.rewriter.specs.Inputs.{HasChild, HasTwo, IsByRow, IsDistinct, IsJoin, IsConcat};

/// Of the trees that compute a plan's node, one over least trees of its inputs is a least one.
pub fn least_computed_trees()
    ensures scan { (entries : Entries) (lengths : Lengths) (q : PlainPlan) (c : Cuts) → IsScan q
        → IsLeastOf IsComputed entries lengths q c (Node q c Scan) }
    ensures one { (entries : Entries) (lengths : Lengths) (q : PlainPlan) (c : Cuts) (x : PlainPlan)
        (r : PlainRewriting) → HasChild q x → IsLeast entries lengths x c r
        → IsLeastOf IsComputed entries lengths q c (Node q c (One r)) }
    ensures two { (entries : Entries) (lengths : Lengths) (q : PlainPlan) (c : Cuts) (x y : PlainPlan)
        (l r : PlainRewriting) → HasTwo q x y → IsLeast entries lengths x (lefts x c) l
        → IsLeast entries lengths y (rights x c) r
        → IsLeastOf IsComputed entries lengths q c (Node q c (Two l r)) }
{}

/// Where a kept result has the plan and the cut, the tree that reads it is the only one that reads.
pub fn least_read_trees()
    ensures { (entries : Entries) (lengths : Lengths) (q : PlainPlan) (c : Cuts) → AreSound entries
        → (hit : Hit) → IsWhole entries q c hit
        → IsLeastOf IsRead entries lengths q c (Node q c (Read hit)) }
{}

/// Of the trees that grow a plan's earlier result, one over least parts is a least one: of a plan with one
/// input, of a concatenation whose left input is unchanged, and of a join whose left, right or both inputs
/// have grown.
pub fn least_grown_trees()
    ensures one { (entries : Entries) → AreSound entries → (lengths : Lengths) (q : PlainPlan) (c : Cuts)
        (hit : Hit) → IsEarlier entries q c hit → (x : PlainPlan) (d : PlainDelta) → HasChild q x
        → IsLeastDelta entries lengths x hit.cuts c d
        → IsLeastOf IsGrown entries lengths q c (Node q c (Tail hit d)) }
    ensures concat { (entries : Entries) → AreSound entries → (lengths : Lengths) (q : PlainPlan) (c : Cuts)
        (hit : Hit) → IsEarlier entries q c hit → (x y : PlainPlan) (d : PlainDelta) → IsConcat q x y
        → lefts x hit.cuts ≡ lefts x c
        → IsLeastDelta entries lengths y (rights x hit.cuts) (rights x c) d
        → IsLeastOf IsGrown entries lengths q c (Node q c (Tail hit d)) }
    ensures left { (entries : Entries) → AreSound entries → (lengths : Lengths) (q : PlainPlan) (c : Cuts)
        (hit : Hit) → IsEarlier entries q c hit → (x y : PlainPlan) (d : PlainDelta) (r : PlainRewriting)
        → IsJoin q x y → rights x hit.cuts ≡ rights x c
        → IsLeastDelta entries lengths x (lefts x hit.cuts) (lefts x c) d
        → IsLeast entries lengths y (rights x c) r
        → IsLeastOf IsGrown entries lengths q c (Node q c (LeftGrew hit d r)) }
    ensures right { (entries : Entries) → AreSound entries → (lengths : Lengths) (q : PlainPlan) (c : Cuts)
        (hit : Hit) → IsEarlier entries q c hit → (x y : PlainPlan) (r : PlainRewriting) (d : PlainDelta)
        → IsJoin q x y → lefts x hit.cuts ≡ lefts x c → IsLeast entries lengths x (lefts x c) r
        → IsLeastDelta entries lengths y (rights x hit.cuts) (rights x c) d
        → IsLeastOf IsGrown entries lengths q c (Node q c (RightGrew hit r d)) }
    ensures both { (entries : Entries) → AreSound entries → (lengths : Lengths) (q : PlainPlan) (c : Cuts)
        (hit : Hit) → IsEarlier entries q c hit → (x y : PlainPlan) (l : PlainRewriting) (d e : PlainDelta)
        (r : PlainRewriting) → IsJoin q x y → lefts x hit.cuts ≢ lefts x c
        → rights x hit.cuts ≢ rights x c → IsLeast entries lengths x (lefts x hit.cuts) l
        → IsLeastDelta entries lengths y (rights x hit.cuts) (rights x c) d
        → IsLeastDelta entries lengths x (lefts x hit.cuts) (lefts x c) e
        → IsLeast entries lengths y (rights x c) r
        → IsLeastOf IsGrown entries lengths q c (Node q c (BothGrew hit l d e r)) }
{}

/// Of the trees that make the rows which came from one cut to another, one over least parts is a least one.
pub fn least_deltas()
    ensures unchanged { (entries : Entries) (lengths : Lengths) (q : PlainPlan) (old new : Cuts) → old ≡ new
        → IsLeastDelta entries lengths q old new (Change q old new Unchanged) }
    ensures scan { (entries : Entries) (lengths : Lengths) (q : PlainPlan) (old new : Cuts) → IsScan q
        → IsLonger old new → IsLeastDelta entries lengths q old new (Change q old new NewRows) }
    ensures by_row { (entries : Entries) (lengths : Lengths) (q : PlainPlan) (old new : Cuts)
        (x : PlainPlan) (d : PlainDelta) → IsByRow q → HasChild q x → old ≢ new
        → IsLeastDelta entries lengths x old new d
        → IsLeastDelta entries lengths q old new (Change q old new (OfChild d)) }
    ensures distinct { (entries : Entries) (lengths : Lengths) (q : PlainPlan) (old new : Cuts)
        (x : PlainPlan) (r : PlainRewriting) (d : PlainDelta) → IsDistinct q → HasChild q x → old ≢ new
        → IsLeast entries lengths q old r → IsLeastDelta entries lengths x old new d
        → IsLeastDelta entries lengths q old new (Change q old new (OfDistinct r d)) }
    ensures concat { (entries : Entries) (lengths : Lengths) (q : PlainPlan) (old new : Cuts)
        (x y : PlainPlan) (d : PlainDelta) → IsConcat q x y → old ≢ new → lefts x old ≡ lefts x new
        → IsLeastDelta entries lengths y (rights x old) (rights x new) d
        → IsLeastDelta entries lengths q old new (Change q old new (OfChild d)) }
    ensures join { (entries : Entries) (lengths : Lengths) (q : PlainPlan) (old new : Cuts)
        (x y : PlainPlan) (d : PlainDelta) (r : PlainRewriting) → IsJoin q x y → old ≢ new
        → rights x old ≡ rights x new → IsLeastDelta entries lengths x (lefts x old) (lefts x new) d
        → IsLeast entries lengths y (rights x new) r
        → IsLeastDelta entries lengths q old new (Change q old new (OfJoin d r)) }
{}

/// Each rewriting computes its plan's node, reads a kept result, or grows an earlier one; so one with an
/// estimate at most that of each of the three forms is a least one.
pub fn least_of_forms()
    ensures { (entries : Entries) (lengths : Lengths) (q : PlainPlan) (c : Cuts) (r : PlainRewriting)
        → IsRewriting (among entries) q c r
        → ((other : PlainRewriting) → IsRewriting (among entries) q c other → IsComputed (way_in other)
        → estimate_of lengths r ≤ estimate_of lengths other)
        → ((other : PlainRewriting) → IsRewriting (among entries) q c other → IsRead (way_in other)
        → estimate_of lengths r ≤ estimate_of lengths other)
        → ((other : PlainRewriting) → IsRewriting (among entries) q c other → IsGrown (way_in other)
        → estimate_of lengths r ≤ estimate_of lengths other)
        → IsLeast entries lengths q c r }
{}

/// A rewriting over sound entries is well formed, so that it can be estimated, and the bytes that it reads be
/// told, without the entries.
pub fn rewritings_are_formed()
    ensures { (entries : Entries) → AreSound entries → (q : PlainPlan) (c : Cuts) (r : PlainRewriting)
        → IsRewriting (among entries) q c r → IsRewriting whichever q c r }
{}
