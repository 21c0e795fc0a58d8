//! What each command of a script records, or why it is refused: a function of the table and the command, with
//! no store.
#![tactic(auto)]

pub mod accepting;
pub mod append_plan;
mod appending;
pub mod closing;
mod collected_files;
pub mod collecting;
pub mod collection_laws;
pub mod collection_refusal;
mod extents;
pub mod fetching;
pub mod making;
pub mod opening;
mod program;
mod reading;
pub mod recording;
pub mod running;
mod typing;

pub use accepting::{Accepted, accept_append};
pub use append_plan::{AppendPlan, plan_append};
pub use closing::plan_close;
pub use collecting::{CollectionPlan, plan_collection};
pub use collection_laws::one_collection;
pub use collection_refusal::CollectionRefusal;
pub use fetching::{FetchPlan, plan_fetch};
pub use making::plan_stream;
pub use opening::{OpenJobs, plan_open};
pub use recording::Recording;
pub use running::{RunPlan, plan_run};
