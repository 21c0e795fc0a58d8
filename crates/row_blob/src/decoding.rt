//! What bytes are read as.
ghost use Rattle.std.specs.Prelude.{◌≡◌, ◌≤◌, ◌↔◌, List, ℕ, length, IfOk, IfErr, MatchResult};
ghost use Rattle.row_blob.specs.declared.kept.Kept.{Kept};
ghost use Rattle.row_blob.specs.declared.shape.Shape.{Shape};
ghost use Rattle.row_blob.specs.Kept.{IsKept};
ghost use Rattle.row_blob.specs.Place.{IsKeptTo, StopsAt, IsPlace};
ghost use Rattle.byte_formats.specs.Reading.{Gives, ended};
ghost use Rattle.row_blob.specs.Reading.{Reads, kept_at};
ghost use Rattle.row_blob.specs.Spelling.{kept_spelling};

use crate::groups::groups_at;
use crate::kept::Kept;
use crate::refusal::BlobRefusal;
use crate::rows::rows_at;
use crate::shape::Shape;
use crate::tagged::tagged_rows_at;
use byte_formats::{Unread, after_literal};
use rows_core::Seq;
use std::alloc::Global;

/// The kept form of the shape that the bytes spell: `NotBlob` exactly where there is none. Its `at` is the
/// first byte such that no spelling has the same bytes up to and with it, or the length of the input where
/// bytes are missing. A group's key that stood before, and a left position that falls or isn't below the left
/// length, count only where they stand, and stop reading at their last byte.
pub fn decode(alloc: Global, bytes: &[u8], shape: &Shape) -> Result<Kept, BlobRefusal>
    // What is read is spelled so.
    ensures found { IfOk result (λ kept. IsKept shape.now kept × (bytes.now ≡ kept_spelling kept)) }
    // What is spelled so is read, unless memory runs out.
    ensures only { (kept : Kept) → IsKept shape.now kept → bytes.now ≡ kept_spelling kept
        → MatchResult result (λ found. found ≡ kept) (λ e. e ≡ BlobRefusal.Memory) }
    // A spelling has the bytes up to the place, and none has the byte there too.
    ensures place { IfErr result (λ e. IsPlace shape.now bytes.now e) }
{
    read(alloc, bytes, shape)
}

/// No two kept forms of one shape have one spelling.
pub fn one_spelling()
    ensures { (shape : Shape) (a b : Kept) → IsKept shape a → IsKept shape b
        → kept_spelling a ≡ kept_spelling b
        → a ≡ b }
{}

/// Bytes have one place at which reading stops.
pub fn one_place()
    ensures { (shape : Shape) (bytes : List ℕ) (a b : ℕ) → StopsAt shape bytes a → StopsAt shape bytes b
        → a ≡ b }
{}

/// What is said of a kept form by all the bytes of its spelling is that it is one of the shape.
pub fn told_by_all()
    ensures { (shape : Shape) (kept : Kept) (n : ℕ) → length (kept_spelling kept) ≤ n
        → IsKeptTo n shape kept ↔ IsKept shape kept }
{}

fn read(alloc: Global, bytes: &[u8], shape: &Shape) -> Result<Kept, BlobRefusal>
    ensures { Reads result (kept_at shape.now bytes.now) (length bytes.now) }
{
    match kept_at(alloc, shape, bytes) {
        Ok(kept) => Ok(kept),
        Err(Unread::Memory) => Err(BlobRefusal::Memory),
        Err(Unread::Left(left)) => Err(BlobRefusal::NotBlob {
            at: bytes.len().saturating_sub(left) as u64,
        }),
    }
}

#[tactic(auto, unfolding(crate::specs::Reading::kept_at))]
fn kept_at(alloc: Global, shape: &Shape, bytes: &[u8]) -> Result<Kept, Unread>
    ensures { Gives (λ x. x) result (kept_at shape.now bytes.now) }
{
    match shape {
        Shape::Rows(kinds) => {
            let rest = after_literal(b"NXT1\x00\x00\x00\x00", bytes)?;
            let (rows, rest) = rows_at(alloc, kinds.items(), rest)?;
            ended(Kept::Rows(Seq::new(rows)), rest)
        }
        Shape::Groups { keys, accs } => {
            let rest = after_literal(b"NXT1\x01\x00\x00\x00", bytes)?;
            let (groups, rest) = groups_at(alloc, keys.items(), accs.items(), rest)?;
            ended(Kept::Groups(Seq::new(groups)), rest)
        }
        Shape::Tagged(kinds) => {
            let rest = after_literal(b"NXT1\x02\x00\x00\x00", bytes)?;
            let (left, rows, rest) = tagged_rows_at(alloc, kinds.items(), rest)?;
            ended(
                Kept::Tagged {
                    left,
                    rows: Seq::new(rows),
                },
                rest,
            )
        }
    }
}

/// The kept form, if no bytes are left.
fn ended(kept: Kept, rest: &[u8]) -> Result<Kept, Unread>
    ensures { Gives (λ x. x) result (ended (kept, rest.now)) }
{
    if !rest.is_empty() {
        return Err(Unread::Left(rest.len()));
    }
    Ok(kept)
}
