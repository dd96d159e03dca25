//! Bytes in a buffer.
ghost use Rattle.std.specs.Prelude.{◌≡◌, ◌≤◌, ◌++◌, length, drop};

/// Puts bytes at the front of a buffer.
pub fn put_front(into: &mut [u8], bytes: &[u8])
    requires { length bytes.now ≤ length into.old }
    ensures { into.new ≡ bytes.now ++ drop (length bytes.now) into.old }
{
    let (front, _rest) = into.split_at_mut(bytes.len());
    front.copy_from_slice(bytes);
}
