//! Cases of collections: a case a line on standard input, and on standard output a line for each, what it
//! gives. `victims` with a tick, the bytes asked for and a lease, the pinned ids and the entries gives the
//! ids that go; `order` with a tick and two entries says which goes first. An entry is its id, the length of
//! its file, its last use, its uses, its machine time and its making. ` | ` stands between the parts, and `,
//! ` between entries. A line that is empty or begins with `#` is no case.
#![tactic(auto)]

mod given;

ghost use Rattle.collector.specs.Ratio.{CanBeRanked};

use anyhow::{Context, Result};
use case_text::cases::answer_each;
use catalog_types::Entry;
use collector::{ratio_cmp, victims};
use given::{entries_of, entry_of, numbers_of};
use std::alloc::Global;
use std::cmp::Ordering;
use std::io;

fn main(rt: HostRuntime) -> io::Result<()> {
    answer_each(rt, answer)
}

fn answer(alloc: Global, case: &str) -> Result<String> {
    let (subject, arguments) = case.split_once(' ').unwrap_or((case, ""));
    let (first, others) = arguments.split_once(" | ").context("no second part")?;
    let (second, third) = others.split_once(" | ").context("no third part")?;
    match subject {
        "victims" => collected(alloc, first, second, third),
        "order" => ordered(alloc, first, second, third),
        _ => None.context("no such subject"),
    }
}

/// The ids that go, or `none`.
fn collected(alloc: Global, rule: &str, pinned: &str, entries: &str) -> Result<String> {
    let rule = numbers_of(alloc, rule)?;
    let [now, reclaim, lease] = rule.as_slice() else {
        return None.context("not three numbers");
    };
    let pinned = numbers_of(alloc, pinned)?;
    let entries = entries_of(alloc, entries, *now)?;
    let ids = victims(alloc, &entries, *now, u64::from(*reclaim), &pinned, *lease)?;
    shown(alloc, &ids)
}

fn shown(alloc: Global, ids: &[u32]) -> Result<String> {
    let mut text = String::new(alloc);
    for id in ids {
        if !text.is_empty() {
            text.push(' ')?;
        }
        let id = format!(in alloc; "{id}")?;
        text.push_str(&id)?;
    }
    if text.is_empty() {
        text.push_str("none")?;
    }
    Ok(text)
}

/// Which of two entries goes first.
fn ordered(alloc: Global, now: &str, first: &str, second: &str) -> Result<String> {
    let now = now.parse::<u32>().ok().context("no tick")?;
    let answer = match order_by_texts(alloc, now, first, second)? {
        Ordering::Less => "the first",
        Ordering::Equal => "neither",
        Ordering::Greater => "the second",
    };
    Ok(String::from_str(alloc, answer)?)
}

fn order_by_texts(alloc: Global, now: u32, first: &str, second: &str) -> Result<Ordering> {
    let first = entry_of(alloc, first, now)?;
    order_of(alloc, now, &first, second)
}

fn order_of(alloc: Global, now: u32, first: &Entry, second: &str) -> Result<Ordering>
    requires { CanBeRanked now first.now }
{
    let second = entry_of(alloc, second, now)?;
    Ok(ratio_cmp(first, &second, now))
}
