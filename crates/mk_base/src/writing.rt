//! What is written behind bytes: a text, a number in decimal digits.
ghost use Rattle.std.specs.Prelude.{◌≡◌, ◌++◌, decimal, OnOk};
ghost use Rattle.std.specs.Fmt.{signed_decimal};

use crate::Mem;
use itoa::Buffer;

/// Appends a text.
pub fn put(out: &mut Vec<u8>, text: &str) -> Result<(), Mem>
    ensures { OnOk result (out.new.items ≡ out.old.items ++ text.now) }
{
    out.extend_from_slice(text.as_bytes())?;
    Ok(())
}

/// Appends a number in decimal digits.
pub fn put_unsigned(out: &mut Vec<u8>, n: u64) -> Result<(), Mem>
    ensures { OnOk result (out.new.items ≡ out.old.items ++ decimal n) }
{
    let mut buffer = Buffer::new();
    put(out, buffer.format(n))
}

/// Appends a number in decimal digits, behind a minus sign where it is below 0.
pub fn put_signed(out: &mut Vec<u8>, n: i64) -> Result<(), Mem>
    ensures { OnOk result (out.new.items ≡ out.old.items ++ signed_decimal n) }
{
    let mut buffer = Buffer::new();
    put(out, buffer.format(n))
}
