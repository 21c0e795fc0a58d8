//! Look-ups among the kept results of a catalogue.
//!
//! The catalogue holds each kept result once, with its plan. So a look-up borrows the catalogue's entries and
//! stores no plan of its own. An index leads from a digest to the ids of the results that have it. What it
//! gives is compared by the whole plan and cut, so that two plans of one digest stand side by side.
#![tactic(auto)]

mod asking;
mod ids;
mod index;
mod indexed;
mod lists;
mod spelled;
mod view;

pub use ids::{entry_of, place_of};
pub use index::CacheIndex;
pub use indexed::IndexedView;
pub use lists::IdLists;
pub use view::View;
