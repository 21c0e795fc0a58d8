//! The text of plans: the grammar of tokens, expressions and plans with names; the reading of a text, and the
//! canonical text.
#![tactic(auto)]

mod counts;
mod draft;
pub mod expr;
mod expr_printer;
mod expressions;
pub mod laws;
pub mod limit;
mod lists;
pub mod named_plan;
pub mod operator;
pub mod parse;
mod parser;
mod part_printer;
pub mod plan;
mod plan_draft;
pub mod plan_laws;
pub mod print;
pub mod print_laws;
pub mod reading_laws;
mod rule;
mod stages;
pub mod text_refusal;
pub mod token;
mod tokenizer;

pub use expr::NamedExpr;
pub use limit::PlanLimit;
pub use named_plan::NamedPlan;
pub use operator::{
    ATOM, COMPARISON, CONJUNCTION, EXPRESSION, Infix, NEGATION, Operator, PRODUCT, Prefix, SIGNED,
    SUM,
};
pub use parse::{parse_expr, parse_plan};
pub use plan::{AggFunction, NamedAgg, NamedColumn, NamedKey, NamedPair, NamedResult, NamedTree};
pub use print::{print_expr, print_plan};
pub use text_refusal::TextRefusal;
pub use token::{Mark, Token, Word};
