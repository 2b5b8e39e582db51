//! Removing the spaces at both ends of a field: `trim_spaces`.

ghost use Rattle.std.specs.Prelude.{◌≡◌, reverse};
ghost use Rattle.gopher_bytes.specs.Trim.{trim_front, trim_spaces};

use bstr::ByteSlice;

/// Returns the bytes without the spaces (32 alone) at both ends.
pub fn trim_spaces(bytes: &[u8]) -> &[u8]
    ensures { result.now ≡ trim_spaces bytes.now }
{
    trim_back(trim_front(bytes))
}

// The search first builds a table of its set, which pays off only if the bytes begin with a
// space.
fn trim_front(bytes: &[u8]) -> &[u8]
    ensures { result.now ≡ trim_front bytes.now }
{
    let [b' ', ..] = bytes else {
        return bytes;
    };
    match bytes.find_not_byteset(b" ") {
        Some(start) => &bytes[start..],
        None => &[],
    }
}

// The search first builds a table of its set, which pays off only if the bytes end with a
// space.
fn trim_back(bytes: &[u8]) -> &[u8]
    ensures { result.now ≡ reverse (trim_front (reverse bytes.now)) }
{
    let [.., b' '] = bytes else {
        return bytes;
    };
    match bytes.rfind_not_byteset(b" ") {
        Some(last) => &bytes[..last + 1],
        None => &[],
    }
}
