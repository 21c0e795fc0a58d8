//! Pieces of a page, and how they are written.
ghost use Rattle.std.specs.Prelude.{◌≡◌, ◌++◌, [], ◌∷◌, decimal, map, OnOk};
ghost use Rattle.catalog_page.specs.Markup.{escaped_byte, escaped, piece_bytes, written, piece_of, Markup};

use crate::fragment::Fragment;
use itoa::Buffer;
use rows_core::Memory;

/// A piece of a page.
#[derive(Clone, Copy)]
pub enum Piece<'a> {
    /// Markup of this crate's own, which stands as it is.
    Markup(Fragment),
    /// A text from outside, whose markup is escaped.
    Shown(&'a [u8]),
    /// A number in decimal.
    Count(u128),
}

/// Writes the pieces behind what stands there, one behind the other.
#[tactic(auto, unfolding(crate::specs::Markup::written))]
pub fn put(to: &mut Vec<u8>, pieces: &[Piece]) -> Result<(), Memory>
    ensures { OnOk result (to.new.items ≡ to.old.items ++ written (map piece_of pieces.now)) }
{
    for piece in pieces {
        put_piece(to, piece)?;
    }
    Ok(())
}

pub(crate) fn put_fragment(to: &mut Vec<u8>, fragment: Fragment) -> Result<(), Memory>
    ensures { OnOk result (to.new.items ≡ to.old.items ++ written (Markup fragment ∷ [])) }
{
    put(to, &[Piece::Markup(fragment)])
}

fn put_piece(to: &mut Vec<u8>, piece: &Piece) -> Result<(), Memory>
    ensures { OnOk result (to.new.items ≡ to.old.items ++ piece_bytes (piece_of piece.now)) }
{
    match piece {
        Piece::Markup(fragment) => Ok(to.extend_from_slice(fragment.text().as_bytes())?),
        Piece::Shown(text) => put_text(to, text),
        Piece::Count(number) => put_count(to, *number),
    }
}

fn put_count(to: &mut Vec<u8>, number: u128) -> Result<(), Memory>
    ensures { OnOk result (to.new.items ≡ to.old.items ++ decimal number) }
{
    let mut digits = Buffer::new();
    to.extend_from_slice(digits.format(number).as_bytes())?;
    Ok(())
}

// Each byte as text of HTML.
fn put_text(to: &mut Vec<u8>, text: &[u8]) -> Result<(), Memory>
    ensures { OnOk result (to.new.items ≡ to.old.items ++ escaped text.now) }
{
    for byte in text {
        put_byte(to, *byte)?;
    }
    Ok(())
}

fn put_byte(to: &mut Vec<u8>, byte: u8) -> Result<(), Memory>
    ensures { OnOk result (to.new.items ≡ to.old.items ++ escaped_byte byte) }
{
    match byte {
        b'&' => to.extend_from_slice(b"&amp;")?,
        b'<' => to.extend_from_slice(b"&lt;")?,
        b'>' => to.extend_from_slice(b"&gt;")?,
        b'"' => to.extend_from_slice(b"&quot;")?,
        b'\'' => to.extend_from_slice(b"&apos;")?,
        _ => to.push(byte)?,
    }
    Ok(())
}
