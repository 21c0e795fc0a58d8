//! Fields at the end of the bytes.
ghost use Rattle.std.specs.Prelude.{◌≡◌, ◌++◌, ◌∷◌, [], OnOk};
ghost use Rattle.std.specs.Int.{w32, w64, w128, to_be_bytes};
ghost use Rattle.byte_formats.specs.Format.{signed, text_spelling, name_spelling, byte_of_flag};

use byteorder::{BigEndian, ByteOrder};
use rows_core::{Digest, Memory, Name, Txt};

pub fn put_byte(out: &mut Vec<u8>, byte: u8) -> Result<(), Memory>
    ensures { OnOk result (out.new.items ≡ out.old.items ++ byte ∷ []) }
{
    out.push(byte)?;
    Ok(())
}

pub fn put_flag(out: &mut Vec<u8>, flag: bool) -> Result<(), Memory>
    ensures { OnOk result (out.new.items ≡ out.old.items ++ byte_of_flag flag ∷ []) }
{
    put_byte(out, if flag { 1 } else { 0 })
}

pub fn put_u32(out: &mut Vec<u8>, number: u32) -> Result<(), Memory>
    ensures { OnOk result (out.new.items ≡ out.old.items ++ to_be_bytes w32 number) }
{
    let mut bytes = [0u8; 4];
    BigEndian::write_u32(&mut bytes, number);
    out.extend_from_slice(&bytes)?;
    Ok(())
}

pub fn put_u64(out: &mut Vec<u8>, number: u64) -> Result<(), Memory>
    ensures { OnOk result (out.new.items ≡ out.old.items ++ to_be_bytes w64 number) }
{
    let mut bytes = [0u8; 8];
    BigEndian::write_u64(&mut bytes, number);
    out.extend_from_slice(&bytes)?;
    Ok(())
}

pub fn put_u128(out: &mut Vec<u8>, number: u128) -> Result<(), Memory>
    ensures { OnOk result (out.new.items ≡ out.old.items ++ to_be_bytes w128 number) }
{
    let mut bytes = [0u8; 16];
    BigEndian::write_u128(&mut bytes, number);
    out.extend_from_slice(&bytes)?;
    Ok(())
}

/// A number in two's complement.
pub fn put_i64(out: &mut Vec<u8>, number: i64) -> Result<(), Memory>
    ensures { OnOk result (out.new.items ≡ out.old.items ++ signed w64 number) }
{
    put_u64(out, number.cast_unsigned())
}

/// A text behind its length.
pub fn put_text(out: &mut Vec<u8>, text: &Txt) -> Result<(), Memory>
    ensures { OnOk result (out.new.items ≡ out.old.items ++ text_spelling text.now) }
{
    let bytes = text.bytes();
    put_u32(out, bytes.len() as u32)?;
    out.extend_from_slice(bytes)?;
    Ok(())
}

/// A name behind its length.
pub fn put_name(out: &mut Vec<u8>, name: &Name) -> Result<(), Memory>
    ensures { OnOk result (out.new.items ≡ out.old.items ++ name_spelling name.now) }
{
    let bytes = name.bytes();
    put_byte(out, bytes.len() as u8)?;
    out.extend_from_slice(bytes)?;
    Ok(())
}

pub fn put_digest(out: &mut Vec<u8>, digest: &Digest) -> Result<(), Memory>
    ensures { OnOk result (out.new.items ≡ out.old.items ++ digest.now.bytes) }
{
    out.extend_from_slice(&digest.bytes)?;
    Ok(())
}
