//! Items behind their count.
ghost use Rattle.std.specs.Prelude.{◌≡◌, ℕ, List};
ghost use Rattle.byte_formats.specs.Reading.{Gives, Read};
ghost use Rattle.byte_formats.specs.Format.{items_at};

use crate::unread::Unread;
use std::alloc::Global;

/// So many items, each read by `item`.
pub fn items_at<'a, T: Drop, F: Fn(&'a [u8]) -> Result<(T, &'a [u8]), Unread>>(
    alloc: Global,
    count: usize,
    bytes: &'a [u8],
    item: F,
) -> Result<(Vec<T>, &'a [u8]), Unread>
    requires { F.IsAlwaysCallable item }
    // Where each call of `item` gives what `read` gives, the items are those that `read` gives one behind the
    // other.
    ensures { (read : List ℕ → Read T)
        → ((bytes : _) (r : _) → F.post item bytes r → Gives (λ x. (x.0, x.1.now)) r (read bytes.now))
        → Gives (λ x. (x.0.items, x.1.now)) result (items_at read count bytes.now) }
{
    let mut items = Vec::new(alloc);
    let mut rest = bytes;
    for _ in 0..count {
        let (next, after) = item(rest)?;
        items.push(next)?;
        rest = after;
    }
    Ok((items, rest))
}
