//! The forms of changes.
ghost use Rattle.std.specs.Prelude.{◌≡◌};
ghost use Rattle.record_codec.specs.Forms.{form_of, checkpoint_byte};

/// What the changes of a log may hold, and with which byte a checkpoint begins.
#[derive(Clone, Copy, Debug, PartialEq, Eq)]
pub enum Form {
    /// Columns are numbers or texts, and a checkpoint begins with 6.
    First,
    /// Columns may also be truth values, and a checkpoint begins with 7.
    Second,
}

impl Form {
    /// The form in which changes are written.
    pub const NEWEST: Form = Form::Second;

    // The first byte of a checkpoint.
    pub(crate) fn checkpoint_byte(self) -> u8
        ensures { result ≡ checkpoint_byte self }
    {
        match self {
            Form::First => 0x06,
            Form::Second => 0x07,
        }
    }
}

/// The form of a log by its first body; a log without one is of the first form.
pub fn form_of(first: &[u8]) -> Form
    ensures { result ≡ form_of first.now }
{
    match first {
        [0x07, ..] => Form::Second,
        _ => Form::First,
    }
}
