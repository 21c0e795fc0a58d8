//! The bytes of plans: each plan has one spelling, `spell` writes it and `unspell` reads it.
#![tactic(auto)]

mod expr;
mod lists;
mod plan;
pub mod reading;
pub mod refusal;
pub mod spelling;
mod tag;
pub mod typed;

pub use reading::{one_place, one_spelling, unspell};
pub use refusal::SpellRefusal;
pub use spelling::spell;
pub use typed::typed_plan_has_spelling;
