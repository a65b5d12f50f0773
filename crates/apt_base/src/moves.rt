// Bytes that are copied from one place to another.
ghost use Rattle.std.specs.Prelude.{◌≡◌, ◌≤◌, length, take, drop};

/// Copies the first bytes of one slice to the front of another.
pub fn copy_front(from: &[u8], to: &mut [u8], count: usize)
    requires there { count ≤ length from.now }
    requires room { count ≤ length to.old }
    ensures { take count to.new ≡ take count from.now }
{
    to[..count].copy_from_slice(&from[..count]);
}

/// The bytes behind the first `start`; none where there are no more.
pub fn from_place(bytes: &[u8], start: usize) -> &[u8]
    ensures { result.now ≡ drop start bytes.now }
{
    bytes.split_at(start.min(bytes.len())).1
}
