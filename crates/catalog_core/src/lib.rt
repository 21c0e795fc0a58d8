//! The catalogue: the table in memory, and the changes that make it.
#![tactic(auto)]

pub mod catalog;
mod chains;
mod columns;
mod extents;
mod files;
pub mod laws;
mod own_files;
mod program;
mod programs;
pub mod refusal;
mod restored_streams;
mod restoring;
mod results;
mod schemas;
mod snapshot;
pub mod stored;
pub mod stream;

pub use catalog::Catalog;
pub use laws::{
    checkpoints_tell_tables, cuts_of_tables, files_of_tables, idle_work, kept_results_of_tables,
    know_table, tables_stay_tables,
};
pub use programs::is_below;
pub use refusal::CatalogRefusal;
pub use stored::StoredPlan;
pub use stream::CatalogStream;
