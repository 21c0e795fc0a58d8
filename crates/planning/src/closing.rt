//! The closing of jobs.
ghost use Rattle.std.specs.Prelude.{◌≡◌, ◌<◌, ◌≤◌, Ok, Err, IfSome, IfNone, length};
ghost use Rattle.catalog_core.specs.Catalogs.{table_of};
ghost use Rattle.catalog_core.specs.Programs.{with_program};
ghost use Rattle.rows_core.specs.Limits.{most_ticks, most_programs};
ghost use Rattle.script_text.specs.declared.answer.Refusal.TheVariants.{Limit};
ghost use Rattle.planning.specs.Running.{Run, storing};

use crate::program::limit_of_program;
use catalog_core::Catalog;
use catalog_types::Program;
use script_text::LimitKind;

/// The first limit that the close of a job passes, by the program that it stores, of the program's text,
/// programs and commands, or `None` where the program is stored. It takes no memory.
pub fn plan_close(catalog: &Catalog, program: &Program) -> Option<LimitKind>
    ensures some { (run : Run) → run.program ≡ program.now → IfSome result (λ kind.
        storing (table_of catalog.now) run ≡ Err (Limit kind)) }
    ensures none { (run : Run) → run.program ≡ program.now → IfNone result
        (storing (table_of catalog.now) run ≡ Ok run) }
    ensures text { IfNone result (length program.now.text ≤ 65536) }
    ensures programs { IfNone result
        (length (with_program program.now (table_of catalog.now).programs) ≤ most_programs) }
    ensures counted { IfNone result ((table_of catalog.now).tick < most_ticks) }
{
    limit_of_program(catalog, program)
}
