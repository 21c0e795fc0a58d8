//! What bytes are read as.
ghost use Rattle.std.specs.Prelude.{◌≡◌, ◌≤◌, ℕ, List, length, IfOk, IfErr, MatchResult};
ghost use Rattle.plan_core.specs.Nesting.{nesting};
ghost use Rattle.plan_core.specs.PlainPlan.{PlainPlan, plan_of};
ghost use Rattle.byte_formats.specs.Reading.{Gives};
ghost use Rattle.byte_formats.specs.Format.{StopsAt, all_of};
ghost use Rattle.plan_spelling.specs.Spelling.{plan_spelling, HasPlanSpelling};
ghost use Rattle.plan_spelling.specs.Formats.{plan_format};
ghost use Rattle.plan_spelling.specs.Parts.{plan_parts};
ghost use Rattle.plan_spelling.specs.Place.{IsLast, IsPlace, Reads};

use crate::plan::plan_at;
use crate::refusal::SpellRefusal;
use byte_formats::Unread;
use plan_core::Plan;
use std::alloc::Global;

/// The greatest nesting of a plan that is read: how many nodes and expressions stand on the longest way down.
const MAX_NESTING: usize = 1_024;

/// The plan that the bytes spell: `NotPlan` exactly where there is none of a nesting up to 1,024, with the
/// place where reading stops. Memory is asked for what was read, never for what a count or a length only
/// announces.
pub fn unspell(alloc: Global, bytes: &[u8]) -> Result<Plan, SpellRefusal>
    // What is read is spelled so.
    ensures found { IfOk result
        (λ plan. HasPlanSpelling (plan_of plan) × (nesting (plan_of plan) ≤ 1024)
        × (bytes.now ≡ plan_spelling (plan_of plan))) }
    // It has no more parts than there are bytes: nodes, items of lists and bytes of texts.
    ensures few { IfOk result (λ plan. plan_parts (plan_of plan) ≤ length bytes.now) }
    // What is spelled so is read, unless memory runs out.
    ensures only { (plan : PlainPlan) → HasPlanSpelling plan → nesting plan ≤ 1024
        → bytes.now ≡ plan_spelling plan
        → MatchResult result (λ found. plan_of found ≡ plan) (λ e. e ≡ SpellRefusal.Memory) }
    // The place is the first byte with which no spelling of a nesting up to 1,024 goes on: some has the bytes
    // up to it, and none has the byte there too.
    ensures last { IfErr result (λ e. IsLast bytes.now e) }
    // The same in the words of the format.
    ensures place { IfErr result (λ e. IsPlace bytes.now e) }
    // Which plan it is, or at which place reading stops, for what reads plans within other bytes.
    ensures exact { Reads result (all_of (plan_format 1024) bytes.now) (length bytes.now) }
{
    read(alloc, bytes)
}

/// No two plans have one spelling.
pub fn one_spelling()
    ensures { (a b : PlainPlan) → HasPlanSpelling a → HasPlanSpelling b → plan_spelling a ≡ plan_spelling b
        → a ≡ b }
{}

/// Bytes have one place at which reading stops.
pub fn one_place()
    ensures { (bytes : List ℕ) (a b : ℕ) → StopsAt (plan_format 1024) bytes a
        → StopsAt (plan_format 1024) bytes b → a ≡ b }
{}

fn read(alloc: Global, bytes: &[u8]) -> Result<Plan, SpellRefusal>
    ensures { Reads result (all_of (plan_format 1024) bytes.now) (length bytes.now) }
{
    match all_at(alloc, bytes) {
        Ok(plan) => Ok(plan),
        Err(Unread::Memory) => Err(SpellRefusal::Memory),
        Err(Unread::Left(left)) => Err(SpellRefusal::NotPlan {
            at: bytes.len().saturating_sub(left) as u64,
        }),
    }
}

fn all_at(alloc: Global, bytes: &[u8]) -> Result<Plan, Unread>
    ensures { Gives plan_of result (all_of (plan_format 1024) bytes.now) }
{
    let (plan, rest) = plan_at(alloc, MAX_NESTING, bytes)?;
    if !rest.is_empty() {
        return Err(Unread::Left(rest.len()));
    }
    Ok(plan)
}
