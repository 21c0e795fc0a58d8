//! The first byte of each node, aggregate and expression.
ghost use Rattle.std.specs.Prelude.{◌≡◌};
ghost use Rattle.byte_formats.specs.Format.{beside};
ghost use Rattle.plan_spelling.specs.Tags.{expr_tags, expr_leaves, expr_tags_above, plan_tags, plan_leaves};
ghost use Rattle.plan_spelling.specs.Tags.{plan_tags_above, agg_tags};

#[derive(Clone, Copy, PartialEq, Eq)]
pub enum PlanTag {
    Scan,
    Filter,
    Project,
    Distinct,
    Group,
    Join,
    Concat,
    Order,
}

#[derive(Clone, Copy, PartialEq, Eq)]
pub enum ExprTag {
    Column,
    Int,
    Text,
    Bool,
    Call,
    And,
    Or,
    If,
}

#[derive(Clone, Copy, PartialEq, Eq)]
pub enum AggTag {
    Count,
    Sum,
    Min,
    Max,
    First,
    Last,
    Avg,
}

impl PlanTag {
    /// The tag of a plan whose parts have at most this nesting.
    pub fn above(depth: usize, byte: u8) -> Option<PlanTag>
        ensures { result ≡ beside (plan_tags_above depth) byte }
    {
        if depth == 0 {
            PlanTag::leaf(byte)
        } else {
            PlanTag::of(byte)
        }
    }

    fn leaf(byte: u8) -> Option<PlanTag>
        ensures { result ≡ beside plan_leaves byte }
    {
        match byte {
            0x01 => Some(PlanTag::Scan),
            _ => None,
        }
    }

    fn of(byte: u8) -> Option<PlanTag>
        ensures { result ≡ beside plan_tags byte }
    {
        match byte {
            0x01 => Some(PlanTag::Scan),
            0x02 => Some(PlanTag::Filter),
            0x03 => Some(PlanTag::Project),
            0x04 => Some(PlanTag::Distinct),
            0x05 => Some(PlanTag::Group),
            0x06 => Some(PlanTag::Join),
            0x07 => Some(PlanTag::Concat),
            0x08 => Some(PlanTag::Order),
            _ => None,
        }
    }
}

impl ExprTag {
    /// The tag of an expression whose parts have at most this nesting.
    pub fn above(depth: usize, byte: u8) -> Option<ExprTag>
        ensures { result ≡ beside (expr_tags_above depth) byte }
    {
        if depth == 0 {
            ExprTag::leaf(byte)
        } else {
            ExprTag::of(byte)
        }
    }

    fn leaf(byte: u8) -> Option<ExprTag>
        ensures { result ≡ beside expr_leaves byte }
    {
        match byte {
            0x11 => Some(ExprTag::Column),
            0x12 => Some(ExprTag::Int),
            0x13 => Some(ExprTag::Text),
            0x14 => Some(ExprTag::Bool),
            _ => None,
        }
    }

    fn of(byte: u8) -> Option<ExprTag>
        ensures { result ≡ beside expr_tags byte }
    {
        match byte {
            0x11 => Some(ExprTag::Column),
            0x12 => Some(ExprTag::Int),
            0x13 => Some(ExprTag::Text),
            0x14 => Some(ExprTag::Bool),
            0x15 => Some(ExprTag::Call),
            0x16 => Some(ExprTag::And),
            0x17 => Some(ExprTag::Or),
            0x18 => Some(ExprTag::If),
            _ => None,
        }
    }
}

impl AggTag {
    pub fn of(byte: u8) -> Option<AggTag>
        ensures { result ≡ beside agg_tags byte }
    {
        match byte {
            1 => Some(AggTag::Count),
            2 => Some(AggTag::Sum),
            3 => Some(AggTag::Min),
            4 => Some(AggTag::Max),
            5 => Some(AggTag::First),
            6 => Some(AggTag::Last),
            7 => Some(AggTag::Avg),
            _ => None,
        }
    }
}
