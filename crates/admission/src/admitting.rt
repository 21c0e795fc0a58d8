//! The results that are kept of those that were made.
ghost use Rattle.std.specs.Prelude.{◌≤◌, [], length, map, IfOk};
ghost use Rattle.std.specs.List.{AllByRecursion};
ghost use Rattle.plan_core.specs.PlainPlan.{plan_of};
ghost use Rattle.plan_spelling.specs.Spelling.{HasPlanSpelling};
ghost use Rattle.entry_table.specs.Ids.{without};
ghost use Rattle.rows_core.specs.Limits.{most_entries, file_end};
ghost use Rattle.executor.specs.declared.outcome.KeptPlace.{KeptPlace};
ghost use Rattle.admission.specs.Admitting.{made_of, entries_of, Admits};

use crate::deciding::decide;
use crate::new_result::NewResult;
use catalog_types::Entry;
use executor::KeptPlace;
use rows_core::Memory;
use std::alloc::Global;

/// The results that are kept of those that were made, beside these entries but those whose ids are among
/// `dropped`: in order each that finds room and a file's number, whose plan is spelled in at most 65,536 bytes
/// and whose file has at most 67,108,864, and whose plan and cut neither such an entry has nor one before it.
/// Their files are numbered from `file` on. Where no machine time is 0 they may be recorded together.
pub fn admit(
    alloc: Global,
    entries: &[Entry],
    dropped: &[u32],
    file: u64,
    made: Vec<KeptPlace>,
) -> Result<Vec<NewResult>, Memory>
    requires spelled { AllByRecursion (λ (place : KeptPlace). HasPlanSpelling (plan_of place.plan))
        made.items }
    requires counted { length entries.now ≤ most_entries }
    requires numbered { file ≤ file_end }
    ensures admits { IfOk result
        (λ admitted. Admits (without dropped.now entries.now) file [] (map made_of made.items)
        admitted.items) }
{
    let mut admitted = Vec::new(alloc);
    for place in made {
        let new = decide(alloc, entries, dropped, file, &admitted, place)?;
        if let Some(new) = new {
            admitted.push(new)?;
        }
    }
    Ok(admitted)
}
