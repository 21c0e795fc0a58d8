//! The bytes of changes: in each form a change has one spelling, `read_change` reads it, and `spell_change`
//! writes that of the newest form. The keys of a checkpoint's entries aren't spelled.
#![tactic(auto)]

mod entries;
pub mod form;
pub mod laws;
mod order;
mod parts;
mod programs;
pub mod reading;
pub mod refusal;
mod snapshot;
pub mod spelling;
mod tag;

pub use form::{Form, form_of};
pub use laws::{
    changes_are_short, newer_spellings, no_spelling_is_empty, one_change, one_place, one_spelling,
    small_changes,
};
pub use reading::read_change;
pub use refusal::ChangeRefusal;
pub use spelling::spell_change;
