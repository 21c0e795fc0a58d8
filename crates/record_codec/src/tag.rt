//! The first byte of each change.
ghost use Rattle.std.specs.Prelude.{◌≡◌};
ghost use Rattle.byte_formats.specs.Format.{beside};
ghost use Rattle.record_codec.specs.Tags.{change_tags};

use crate::form::Form;

#[derive(Clone, Copy, PartialEq, Eq)]
pub enum ChangeTag {
    Stream,
    Append,
    Work,
    Collect,
    Checkpoint,
}

impl ChangeTag {
    pub fn of(form: Form, byte: u8) -> Option<ChangeTag>
        ensures { result ≡ beside (change_tags form) byte }
    {
        match byte {
            0x01 => Some(ChangeTag::Stream),
            0x02 => Some(ChangeTag::Append),
            0x03 => Some(ChangeTag::Work),
            0x04 => Some(ChangeTag::Collect),
            _ if byte == form.checkpoint_byte() => Some(ChangeTag::Checkpoint),
            _ => None,
        }
    }
}
