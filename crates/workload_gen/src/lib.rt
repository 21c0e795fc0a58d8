//! A generated script, as a workload for measurements: three streams, 200 appends of 500 rows, 60 runs and
//! ten collections, all of which follow from one number. The rule is this project's own choice; the constants
//! of its generator are those of Knuth's MMIX.
//!
//! The generator's state x begins as the number. A draw below k sets x to
//! `x * 6364136223846793005 + 1442695040888963407` modulo 2^64, and gives `(x >> 33) mod k`.
//!
//! 1. The streams are `stream sI (id:int, tag:text, qty:int)` for I = 0, 1, 2.
//! 2. Append a, for a = 0 to 199, draws C below 3 and appends 500 rows to sC. Row j, from 0, has the id
//!    `a * 500 + j`; then T is drawn below 20, and the tag is `tT`; then q is drawn below 1,000, and the qty
//!    is `q - 200`.
//! 3. After each append with `a mod 10 = 9`, K is drawn below 12 and `run pK = ` stands with program K, three
//!    times.
//! 4. After each append with `a mod 20 = 19`, and after its runs, `collect 20000` stands.
//!
//! Each command's lines end with LF; an append is `append sC`, the row lines `ID,"tT",Q`, and `end`.
#![tactic(auto)]

mod appends;
mod draws;
pub mod laws;
mod numbers;
mod programs;
mod runs;
pub mod script;

pub use laws::script_is_short;
pub use script::script_of;
