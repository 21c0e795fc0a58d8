//! What is recorded.
ghost use Rattle.std.specs.Prelude.{◌≡◌, IfOk, IfErr};
ghost use Rattle.record_codec.specs.Spelling.{change_spelling, HasChangeSpelling};

use catalog_types::Change;
use record_codec::spell_change;
use rows_core::Memory;
use script_text::Refusal;
use std::alloc::Global;

/// A change that fits the table, and the bytes that are recorded of it.
#[derive(Drop)]
pub struct Recording {
    pub change: Change,
    pub body: Vec<u8>,
}

// The change with its bytes.
pub(crate) fn recording_of(alloc: Global, change: Change) -> Result<Recording, Refusal>
    requires { HasChangeSpelling change }
    ensures change { IfOk result (λ recording. recording.change ≡ change) }
    ensures body { IfOk result (λ recording. recording.body.items ≡ change_spelling change) }
    ensures err { IfErr result (λ why. why ≡ Refusal.Memory) }
{
    match spell_change(alloc, &change) {
        Ok(body) => Ok(Recording { change, body }),
        Err(Memory) => Err(Refusal::Memory),
    }
}
