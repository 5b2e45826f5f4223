//! Bytes copied into a buffer.

ghost use Rattle.std.specs.Prelude.{◌≡◌, ◌≤◌, length, take};

/// Copies the first `n` bytes to the front of a buffer.
pub(crate) fn copy_front(from: &[u8], buf: &mut [u8], n: usize)
    requires there { n ≤ length from.now }
    requires room { n ≤ length buf.old }
    ensures { take n buf.new ≡ take n from.now }
{
    buf[..n].copy_from_slice(&from[..n]);
}
