//! Cases of the executor: a case a line on standard input, and on standard output a line for each step, what
//! it gives. A case is a plan (`postfix_plans` says how plans are written), behind ` | ` each stream, and
//! behind ` || ` the steps, with ` ; ` between them. A stream is the kinds of its columns and the rows of its
//! extents, with `/` between extents; `1000*7,1` is a row a thousand times. A step is how many extents of the
//! stream of each leaf count, with `,` between them.
//!
//! At each step the plan is run at that cut over files in memory, those of the extents and of all that the
//! steps before have kept, and what may be kept of it is kept. The answer is the rows or the refusal; the
//! bytes that are read and the kept results that are used; each result that is kept and wasn't before, by its
//! id, with its operator, its cut and its machine time; and whether `plan_evaluator` gives the same of the
//! same rows.
//!
//! Where a case begins with `held`, the answer of a step is how many rows and groups are held after each file
//! that is read, and nothing is kept. `run` and `made` are of whole plans (`whole.rt`). A line that is empty or
//! begins with `#` is no case.
#![tactic(auto)]

mod given;
mod held;
mod made;
mod meant;
mod running;
mod shelf;
mod shown;
mod steps;
mod whole;
mod within;

use anyhow::Result;
use case_text::cases::answer_each;
use given::{Asked, Case, case_of};
use held::held_at_steps;
use shelf::{Disk, Shelf, shelf_of};
use std::alloc::Global;
use std::io;
use steps::{run_at_steps, run_once};
use whole::{made_case, whole_case};

fn main(rt: HostRuntime) -> io::Result<()> {
    answer_each(rt, answer)
}

fn answer(alloc: Global, case: &str) -> Result<String> {
    let case = case_by_word(alloc, case)?;
    answer_on_disk(alloc, &case)
}

fn case_by_word(alloc: Global, case: &str) -> Result<Case> {
    let (word, others) = case.split_once(' ').unwrap_or((case, ""));
    match word {
        "held" => case_of(alloc, Asked::Held, others),
        "run" => whole_case(alloc, others),
        "made" => made_case(alloc, others),
        _ => case_of(alloc, Asked::Steps, case),
    }
}

fn answer_on_disk(alloc: Global, case: &Case) -> Result<String> {
    let mut disk = Disk::new(alloc);
    answer_from_files(alloc, case, &mut disk)
}

fn answer_from_files(alloc: Global, case: &Case, disk: &mut Disk) -> Result<String> {
    let mut shelf = shelf_of(alloc, case, disk)?;
    answer_over(alloc, case, &mut shelf, disk)
}

fn answer_over(alloc: Global, case: &Case, shelf: &mut Shelf, disk: &mut Disk) -> Result<String> {
    match case.asked {
        Asked::Held => held_at_steps(alloc, case, shelf, disk),
        Asked::Steps => run_at_steps(alloc, case, shelf, disk),
        Asked::Rows => run_once(alloc, case, shelf, disk),
        Asked::Count => {
            let rows = run_once(alloc, case, shelf, disk)?;
            shown::count_shown(alloc, rows.as_str())
        }
    }
}
