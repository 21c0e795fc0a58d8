//! The one spelling of a kept form.
ghost use Rattle.std.specs.Prelude.{◌≡◌, ◌++◌, ◌<◌, ◌^◌, OnOk, IfOk, length};
ghost use Rattle.std.specs.List.{flat_map};
ghost use Rattle.row_blob.specs.Spelling.{kept_spelling, header, row_spelling, group_spelling};
ghost use Rattle.row_blob.specs.Spelling.{tagged_spelling};

use crate::kept::{GroupRow, Kept, TaggedRow};
use crate::length::encoded_len;
use crate::put::{put_group, put_row, put_tagged};
use byte_formats::put_u64;
use rows_core::{Memory, Row};
use std::alloc::Global;

/// The bytes of the file that holds the kept form.
pub fn encode(alloc: Global, kept: &Kept) -> Result<Vec<u8>, Memory>
    requires { length (kept_spelling kept.now) < 2 ^ 64 }
    ensures { IfOk result (λ bytes. bytes.items ≡ kept_spelling kept.now) }
{
    let mut out = Vec::with_capacity(alloc, encoded_len(kept) as usize)?;
    match kept {
        Kept::Rows(rows) => {
            put_header(&mut out, 0, rows.items().len() as u64)?;
            put_rows(&mut out, rows.items())?;
        }
        Kept::Groups(groups) => {
            put_header(&mut out, 1, groups.items().len() as u64)?;
            put_groups(&mut out, groups.items())?;
        }
        Kept::Tagged { left, rows } => {
            put_header(&mut out, 2, rows.items().len() as u64)?;
            put_u64(&mut out, *left)?;
            put_tagged_rows(&mut out, rows.items())?;
        }
    }
    Ok(out)
}

fn put_header(out: &mut Vec<u8>, form: u8, count: u64) -> Result<(), Memory>
    ensures { OnOk result (out.new.items ≡ out.old.items ++ header form count) }
{
    out.extend_from_slice(&[b'N', b'X', b'T', b'1', form, 0, 0, 0])?;
    put_u64(out, count)
}

fn put_rows(out: &mut Vec<u8>, rows: &[Row]) -> Result<(), Memory>
    ensures { OnOk result (out.new.items ≡ out.old.items ++ flat_map row_spelling rows.now) }
{
    for row in rows {
        put_row(out, row)?;
    }
    Ok(())
}

fn put_groups(out: &mut Vec<u8>, groups: &[GroupRow]) -> Result<(), Memory>
    ensures { OnOk result (out.new.items ≡ out.old.items ++ flat_map group_spelling groups.now) }
{
    for group in groups {
        put_group(out, group)?;
    }
    Ok(())
}

fn put_tagged_rows(out: &mut Vec<u8>, rows: &[TaggedRow]) -> Result<(), Memory>
    ensures { OnOk result (out.new.items ≡ out.old.items ++ flat_map tagged_spelling rows.now) }
{
    for row in rows {
        put_tagged(out, row)?;
    }
    Ok(())
}
