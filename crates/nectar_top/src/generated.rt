//! What stands in place of the source and the sink while a generated script is run.
ghost use Rattle.std.specs.Prelude.{◌≡◌, ◌≤◌, min, take, drop, length, None, Some};

use outside_traits::{Failed, Sink, Source};

/// A script in memory, whose reads don't fail.
#[derive(Drop)]
pub struct ScriptBytes<'a> {
    pub rest: &'a [u8],
}

impl<'a> Source for ScriptBytes<'a> {
    ghost left = { λ s. Some s.rest.now };

    ghost faults = { λ s. 0 };

    fn read(&mut self, buf: &mut [u8]) -> Result<usize, Failed> {
        let count = copy_front(self.rest, buf);
        self.rest = &self.rest[count..];
        Ok(count)
    }
}

/// A sink that lets go of what it is given, and doesn't tell it.
#[derive(Drop)]
pub struct Discard;

impl Sink for Discard {
    ghost written = { λ s. None };

    ghost faults = { λ s. 0 };

    fn write(&mut self, bytes: &[u8]) -> Result<usize, Failed> {
        Ok(bytes.len())
    }
}

// Copies the front of these bytes, and says how many they are.
fn copy_front(bytes: &[u8], buf: &mut [u8]) -> usize
    ensures count { result ≡ min (length buf.old) (length bytes.now) }
    ensures len { length buf.new ≡ length buf.old }
    ensures front { take result buf.new ≡ take result bytes.now }
{
    let count = buf.len().min(bytes.len());
    buf[..count].copy_from_slice(&bytes[..count]);
    count
}
