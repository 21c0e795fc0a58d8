//! Names that aren't below another.
ghost use Rattle.std.specs.Prelude.{◌≡◌, [], length};
ghost use Rattle.byte_formats.specs.Reading.{Gives};
ghost use Rattle.byte_formats.specs.Format.{name_spelling};
ghost use Rattle.record_codec.specs.Order.{may_reach, may_reach_sized, left_unreached, left_unreached_sized};
ghost use Rattle.record_codec.specs.Formats.{name_from};

use byte_formats::{Unread, name_at};
use rows_core::Name;
use std::alloc::Global;

/// The greatest byte of a name.
const GREATEST: u8 = b'z';

/// A name that isn't below the one before in the order of bytes. A byte with which no such name goes on stops
/// reading.
pub fn name_from<'a>(
    alloc: Global,
    previous: &[u8],
    bytes: &'a [u8],
) -> Result<(Name, &'a [u8]), Unread>
    ensures { Gives (λ x. (x.0, x.1.now)) result ((name_from previous.now).read bytes.now) }
{
    match name_at(alloc, bytes) {
        Ok((name, rest)) => {
            if reaches(previous, &name) {
                Ok((name, rest))
            } else {
                Err(Unread::Left(left_unreached_sized(previous, bytes)))
            }
        }
        Err(Unread::Memory) => Err(Unread::Memory),
        Err(Unread::Left(left)) => {
            let unreached = left_unreached_sized(previous, bytes);
            Err(Unread::Left(left.max(unreached)))
        }
    }
}

/// Whether the name isn't below the one before.
fn reaches(previous: &[u8], name: &Name) -> bool
    ensures { result ≡ may_reach_sized previous.now (name_spelling name.now) }
{
    let bytes = name.bytes();
    may_reach(previous, bytes.len(), bytes)
}

/// How many bytes are left from the first with which no name behind its length reaches the one before.
fn left_unreached_sized(previous: &[u8], bytes: &[u8]) -> usize
    ensures { result ≡ left_unreached_sized previous.now bytes.now }
{
    let [len, rest @ ..] = bytes else {
        return 0;
    };
    if may_reach(previous, *len as usize, b"") {
        left_unreached(previous, *len as usize, rest)
    } else {
        bytes.len()
    }
}

/// Whether some name that begins with these bytes and has room for so many in all isn't below the one before.
fn may_reach(previous: &[u8], room: usize, front: &[u8]) -> bool
    ensures { result ≡ may_reach previous.now room front.now }
{
    let [least, previous @ ..] = previous else {
        return true;
    };
    if room == 0 {
        return false;
    }
    match front {
        [] => *least < GREATEST || (*least == GREATEST && may_reach(previous, room - 1, front)),
        [byte, front @ ..] => {
            *byte <= GREATEST
                && (*least < *byte || (*least == *byte && may_reach(previous, room - 1, front)))
        }
    }
}

/// How many bytes are left from the first with which none of these names reaches the one before.
fn left_unreached(previous: &[u8], room: usize, bytes: &[u8]) -> usize
    ensures { result ≡ left_unreached previous.now room bytes.now }
{
    let [byte, rest @ ..] = bytes else {
        return 0;
    };
    let [least, others @ ..] = previous else {
        return 0;
    };
    if room == 0 || !may_reach(previous, room, &[*byte]) {
        return bytes.len();
    }
    if *least == *byte {
        left_unreached(others, room - 1, rest)
    } else {
        0
    }
}
