//! The catalogue as a page: the line that tells it, read, and one HTML document of it.
#![tactic(auto)]

pub mod catalogue;
pub mod fragment;
pub mod key;
pub mod laws;
pub mod line;
mod lines;
pub mod markup;
mod order;
mod page;
mod program_keys;
mod program_rows;
mod reading;
pub mod refusal;
mod result_rows;
mod stream_rows;
mod sums;
mod values;

pub use key::Key;
pub use laws::texts_add_no_markup;
pub use line::page_of_line;
pub use refusal::ReadRefusal;
