//! What a plan's result is on a longer cut, made of the earlier result and of what came since; and what a
//! rewriting makes. Each law is a function that does nothing, whose contract is the law.
#![tactic(auto)]

pub mod added;
pub mod chains;
pub mod computed;
pub mod forms;
pub mod given;
pub mod grown;
pub mod lists;
pub mod named;
pub mod parts;
pub mod pieces;
pub mod places;
pub mod trees;

pub use added::{rows_added_to_joins, rows_added_to_leaves, rows_added_to_one_input};
pub use chains::chains_of_joined_lists;
pub use computed::results_that_are_computed;
pub use forms::forms_of_results;
pub use given::rows_of_ungrown_rewritings;
pub use grown::{joins_that_grow, results_that_grow};
pub use lists::{lists_of_two_inputs, rows_of_each_extent, rows_of_longer_intervals};
pub use named::named_files_are_there;
pub use parts::{machine_times_of_parts, results_of_parts};
pub use pieces::{files_of_pieces, results_of_pieces};
pub use places::results_of_made_places;
pub use trees::{
    one_result_of_lists, results_of_deltas, results_of_entries, results_of_rewritings,
};
