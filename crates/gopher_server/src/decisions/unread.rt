//! How many bytes of a request the system still holds.

ghost use Rattle.std.specs.Prelude.{◌≡◌};
ghost use Rattle.gopher_server.specs.Unread.{unread_after as left_of};

/// Returns how many of `unread` bytes the system still holds after a read that took `taken` bytes.
/// It holds none after a read that took nothing, because that is the end of the input.
pub fn unread_after(unread: usize, taken: usize) -> usize
    ensures { result ≡ left_of unread taken }
{
    if taken == 0 {
        0
    } else {
        unread.saturating_sub(taken)
    }
}
