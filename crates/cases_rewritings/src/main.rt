//! Cases of rewritings: a case a line on standard input, and on standard output a line for each, what it
//! gives. A case is a plan (`postfix_plans` says how plans are written), the lengths of the extents of its
//! streams, a cut, and the kept results, with ` | ` between them. The answer is the estimate of the least
//! rewriting, the bytes that it reads, and the ids of the kept results that it uses. A line that is empty or
//! begins with `#` is no case.
#![tactic(auto)]

mod given;
mod searched;
mod shown;

use anyhow::Result;
use case_text::cases::answer_each;
use std::alloc::Global;
use std::io;

fn main(rt: HostRuntime) -> io::Result<()> {
    answer_each(rt, answer)
}

fn answer(alloc: Global, case: &str) -> Result<String> {
    searched::least_of(alloc, &given::case_of(alloc, case)?)
}
