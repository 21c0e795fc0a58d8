//! Numbers in decimal.
ghost use Rattle.std.specs.Prelude.{◌≡◌, ◌++◌, OnOk, decimal};
ghost use Rattle.std.specs.Fmt.{signed_decimal};

use itoa::Buffer;
use rows_core::Memory;

/// Appends the number's digits.
pub fn push_number(number: u64, to: &mut Vec<u8>) -> Result<(), Memory>
    ensures { OnOk result (to.new.items ≡ to.old.items ++ decimal number) }
{
    let mut buffer = Buffer::new();
    to.extend_from_slice(buffer.format(number).as_bytes())?;
    Ok(())
}

/// Appends the number's digits, behind a `-` where it is negative.
pub fn push_signed(number: i64, to: &mut Vec<u8>) -> Result<(), Memory>
    ensures { OnOk result (to.new.items ≡ to.old.items ++ signed_decimal number) }
{
    let mut buffer = Buffer::new();
    to.extend_from_slice(buffer.format(number).as_bytes())?;
    Ok(())
}
