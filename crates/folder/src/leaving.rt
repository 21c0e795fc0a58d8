//! Which logs loading leaves as they are.
ghost use Rattle.std.specs.Prelude.{◌≡◌, ◌↔◌, ◌≤◌, IsTrue};
ghost use Rattle.record_codec.specs.Forms.{newest};
ghost use Rattle.folder.specs.InUse.{most_bodies};

use record_codec::Form;

/// The most bodies of a log that loading leaves.
const MOST_BODIES: usize = 1_024;

/// Whether loading leaves a log of so many bodies of this form as it is.
pub(crate) fn may_stay(form: Form, bodies: usize) -> bool
    ensures { IsTrue result ↔ (bodies ≤ most_bodies) × (form ≡ newest) }
{
    bodies <= MOST_BODIES && form == Form::NEWEST
}
