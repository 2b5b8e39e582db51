//! Cutting bytes at the first delimiter: `split_once`.

ghost use Rattle.std.specs.Prelude.{◌≡◌, ◌<◌, ◌∷◌, ◌++◌, length, IfSome};
ghost use Rattle.gopher_bytes.specs.Lines.{CutsAtFirst, CutsOnce, LeavesRest};

use memchr::memchr;

/// Returns the bytes before the first `byte` and the bytes after it, or `None` if `bytes` doesn't
/// contain it.
pub fn split_once(byte: u8, bytes: &[u8]) -> Option<(&[u8], &[u8])>
    ensures parts { CutsOnce byte bytes.now result }
    ensures none { CutsAtFirst byte bytes.now result }
    ensures rest { LeavesRest byte bytes.now result }
    ensures shorter { IfSome result (λ parts. length parts.1.now < length bytes.now) }
    ensures whole { IfSome result (λ parts. bytes.now ≡ parts.0.now ++ byte ∷ parts.1.now) }
{
    match memchr(byte, bytes) {
        Some(end) => Some((&bytes[..end], &bytes[end + 1..])),
        None => None,
    }
}
