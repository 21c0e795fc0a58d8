//! The table of the scalar operations.
ghost use Rattle.std.specs.Prelude.{◌≡◌};
ghost use Rattle.std.specs.List.{position};
ghost use Rattle.std.specs.Cmp.Lexicographic.{pointwise};
ghost use Rattle.scalar_ops.specs.Cells.{same_cell_kind};
ghost use Rattle.scalar_ops.specs.Table.{kinds_of_args, same_op, is_row_for};

use crate::cell::CellKind;

/// A scalar operation. `and`, `or` and `if` are none, since they don't evaluate each of their parts.
#[derive(Clone, Copy, Debug, PartialEq, Eq)]
pub enum Op {
    Add,
    Sub,
    Mul,
    Neg,
    Abs,
    Div,
    Mod,
    Least,
    Most,
    Eq,
    Ne,
    Lt,
    Le,
    Gt,
    Ge,
    Len,
    Starts,
    Not,
}

/// The kinds of an operation's arguments, in their order.
#[derive(Clone, Copy, PartialEq, Eq)]
pub enum Args {
    One(CellKind),
    Two(CellKind, CellKind),
}

/// An operation at some kinds: the kind of its result, and whether it may overflow.
#[derive(Clone, Copy, PartialEq, Eq)]
pub struct OpRow {
    pub op: Op,
    pub args: Args,
    pub result: CellKind,
    pub overflows: bool,
}

/// Operations by the number of their row, counted from 0.
#[derive(Clone, Copy, PartialEq, Eq)]
pub struct OpTable<const N: usize> {
    pub rows: [OpRow; N],
}

const INT: Args = Args::One(CellKind::Int);

const TEXT: Args = Args::One(CellKind::Text);

const BOOL: Args = Args::One(CellKind::Bool);

const INTS: Args = Args::Two(CellKind::Int, CellKind::Int);

const TEXTS: Args = Args::Two(CellKind::Text, CellKind::Text);

const BOOLS: Args = Args::Two(CellKind::Bool, CellKind::Bool);

/// A row of the table, in one line.
macro_rules! row {
    ($op:ident $args:ident $result:ident overflows) => {
        OpRow {
            op: Op::$op,
            args: $args,
            result: CellKind::$result,
            overflows: true,
        }
    };
    ($op:ident $args:ident $result:ident) => {
        OpRow {
            op: Op::$op,
            args: $args,
            result: CellKind::$result,
            overflows: false,
        }
    };
}

/// The type of the table of all scalar operations.
pub type Operations = OpTable<32>;

/// The scalar operations. Plans, in memory and in files, name them by row, so new rows stand behind the old ones.
pub static OPS: Operations = OpTable {
    rows: [
        row!(Add INTS Int overflows),
        row!(Sub INTS Int overflows),
        row!(Mul INTS Int overflows),
        row!(Neg INT Int overflows),
        row!(Abs INT Int overflows),
        row!(Div INTS Int overflows),
        row!(Mod INTS Int),
        row!(Least INTS Int),
        row!(Most INTS Int),
        row!(Eq INTS Bool),
        row!(Eq TEXTS Bool),
        row!(Ne INTS Bool),
        row!(Ne TEXTS Bool),
        row!(Lt INTS Bool),
        row!(Lt TEXTS Bool),
        row!(Le INTS Bool),
        row!(Le TEXTS Bool),
        row!(Gt INTS Bool),
        row!(Gt TEXTS Bool),
        row!(Ge INTS Bool),
        row!(Ge TEXTS Bool),
        row!(Len TEXT Int),
        row!(Starts TEXTS Bool),
        row!(Not BOOL Bool),
        row!(Eq BOOLS Bool),
        row!(Ne BOOLS Bool),
        row!(Lt BOOLS Bool),
        row!(Le BOOLS Bool),
        row!(Gt BOOLS Bool),
        row!(Ge BOOLS Bool),
        row!(Least BOOLS Bool),
        row!(Most BOOLS Bool),
    ],
};

impl<const N: usize> OpTable<N> {
    /// The place of the first row with this operation and these kinds; `None` exactly where no row has them.
    /// It takes no memory.
    pub fn find(&self, op: Op, kinds: &[CellKind]) -> Option<usize>
        ensures { result ≡ position (is_row_for op kinds.now) self.now.rows }
    {
        self.rows.iter().position(|row| row.is_for(op, kinds))
    }
}

impl OpRow {
    fn is_for(&self, op: Op, kinds: &[CellKind]) -> bool
        ensures { result ≡ is_row_for op kinds.now self.now }
    {
        self.op.is_same(op) && self.args.are(kinds)
    }
}

impl Op {
    /// Whether this is that operation. It takes no memory.
    pub fn is_same(self, other: Op) -> bool
        ensures { result ≡ same_op self other }
    {
        self == other
    }
}

impl Args {
    fn are(&self, kinds: &[CellKind]) -> bool
        ensures { result ≡ pointwise same_cell_kind (kinds_of_args self.now) kinds.now }
    {
        match (self, kinds) {
            (Args::One(first), [kind]) => first == kind,
            (Args::Two(first, second), [kind, other]) => first == kind && second == other,
            _ => false,
        }
    }
}
