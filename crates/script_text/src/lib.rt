//! The script as text: the commands that its bytes spell, and the bytes of the answers.
#![tactic(auto)]

pub mod answer;
mod block;
mod collect_line;
mod dispatch;
mod entry_line;
mod fetch_line;
mod file_lines;
pub mod item;
mod job_line;
pub mod laws;
mod line;
pub mod line_of_answer;
pub mod lines;
mod list_line;
mod long_lines;
mod place;
mod run_line;
mod spelling;
mod stream_line;
mod words;

pub use answer::{Answer, EntrySummary, LimitKind, Refusal, line_count, long_line, print_line};
pub use item::{Command, Item, commands_are_whole, refusals_are_for_the_bytes};
pub use laws::line_is_short;
pub use lines::Lines;
pub use spelling::{
    append_spelling, catalog_spelling, collect_spelling, entries_spelling, fetch_spelling,
    job_spelling, open_spelling, run_spelling, stream_spelling,
};
