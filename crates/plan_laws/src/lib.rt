//! What plans mean, in the words of the subject, and what is kept of their results. Each law is a function
//! that does nothing, whose contract is the law.
#![tactic(auto)]

pub mod distinct;
pub mod groups;
pub mod growth_of_groups;
pub mod growth_of_joins;
pub mod growth_of_rows;
pub mod kept;
pub mod order;
pub mod typed;
pub mod valid;

pub use distinct::first_of_equal_rows;
pub use groups::keys_of_groups;
pub use growth_of_groups::{
    groups_are_within_bounds, groups_of_files_are_within_bounds, groups_of_joined_lists,
    rows_of_groups, rows_that_groups_take_in,
};
pub use growth_of_joins::{
    growth_of_two_inputs, joins_ascend_by_position, joins_of_longer_lists, one_merge_by_position,
    rows_that_two_inputs_take_in,
};
pub use growth_of_rows::{
    first_of_equal_rows_of_joined_lists, growth_of_one_input, order_of_joined_lists,
    rows_of_joined_lists,
};
pub use kept::{kept_forms_have_their_shape, rows_of_kept_forms};
pub use order::one_stable_order;
pub use typed::typed_plans_give_typed_rows;
pub use valid::typed_plans_give_valid_rows;
