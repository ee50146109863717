// The room for a file: the lent buffer, and the longest file that there may be.
ghost use Rattle.std.specs.Prelude.{◌≡◌, ◌+◌};
ghost use Rattle.refusals.specs.Numbers.{exceeds};

use answers::FILE_MAX;

// Whether a file of this length is longer than the buffer, or than any file may be.
pub fn is_too_long(len: usize, room: usize) -> bool
    ensures { result ≡ exceeds len room }
{
    room < len || FILE_MAX < len
}

// Whether it would be with n bytes more. A length that does not fit a usize is longer than any file may be.
pub fn is_too_long_with(len: usize, n: usize, room: usize) -> bool
    ensures { result ≡ exceeds (len + n) room }
{
    match len.checked_add(n) {
        Some(longer) => is_too_long(longer, room),
        None => true,
    }
}
