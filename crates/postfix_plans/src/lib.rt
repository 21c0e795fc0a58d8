//! Plans, cuts, streams and rows, as case programs are given them in lines of text; the rows that a plan
//! gives; and kept results and the lengths of extents in lists, over which they search.
#![tactic(auto)]

mod cuts;
mod extents;
mod looking;
mod reader;
mod results;
mod rows;
mod soundness;
mod streams;

pub use cuts::cuts_of;
pub use extents::{ExtentLens, are_in_streams};
pub use reader::{expr_of, literal_of, plan_of};
pub use results::{ListedResult, ResultList};
pub use rows::{rows_of, typed, typed_of};
pub use soundness::are_sound;
pub use streams::{Streams, kinds_of, streams_of};
