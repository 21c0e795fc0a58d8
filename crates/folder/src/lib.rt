//! What a folder holds, and what a crash leaves of it: a table in a journal, and rows in files of their own.
#![tactic(auto)]

pub mod checkpoint;
pub mod checkpoint_laws;
mod files;
pub mod folder;
pub mod found;
mod freeing;
pub mod laws;
mod leaving;
pub mod refusal;
mod removing;
pub mod replay;
pub mod strays;

pub use checkpoint::spell_checkpoint;
pub use checkpoint_laws::{checkpoints_are_changes, tables_stay_spelled};
pub use folder::Folder;
pub use laws::{
    files_of_states, files_that_went, left_stores, next_states, one_table, rows_of_states,
};
pub use refusal::LoadRefusal;
pub use strays::remove_strays;
