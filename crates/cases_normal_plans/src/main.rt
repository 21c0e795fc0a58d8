//! Cases of normal plans, a case a line on standard input, and on standard output a line for each.
//!
//! A case is two plans with ` => ` between them: whether the second is the normal plan of the first, or else
//! whether the two have one normal plan. Or it is a plan and its streams, with ` | ` before each: the rows of
//! the plan, and whether its normal plan gives the same. `postfix_plans` says how plans and streams are
//! written. A line that is empty or begins with `#` is no case.
#![tactic(auto)]

mod forms;
mod meaning;

use anyhow::Result;
use case_text::cases::answer_each;
use std::alloc::Global;
use std::io;

fn main(rt: HostRuntime) -> io::Result<()> {
    answer_each(rt, answer)
}

/// What the case gives.
fn answer(alloc: Global, case: &str) -> Result<String> {
    match case.split_once(" => ") {
        Some((first, second)) => {
            let answer = forms::compared(alloc, first, second)?;
            Ok(String::from_str(alloc, answer)?)
        }
        None => meaning::compared(alloc, case),
    }
}
