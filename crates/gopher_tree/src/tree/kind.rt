//! The types of files: RFC 1436, section 3.8, lists types; how a file gets its type is this
//! profile's.

ghost use Rattle.std.specs.Prelude.{◌≡◌, ◌==◌};
ghost use Rattle.std.specs.List.{list_any};
ghost use Rattle.gopher_tree.specs.Kind.{has_ending, is_image, kind_of};

use memchr::memchr;

// Whether the name ends with `ending`, in any case.
fn has_ending(ending: &[u8], name: &[u8]) -> bool
    ensures { result ≡ has_ending ending.now name.now }
{
    let start = name.len().saturating_sub(ending.len());
    name[start..].eq_ignore_ascii_case(ending)
}

fn is_image(name: &[u8]) -> bool
    ensures { result ≡ is_image name.now }
{
    has_ending(b".png", name) || has_ending(b".jpg", name) || has_ending(b".jpeg", name)
}

fn has_nul(bytes: &[u8]) -> bool
    ensures { result ≡ list_any (λ byte. byte == 0) bytes.now }
{
    memchr(0, bytes).is_some()
}

// The type of a file by its name and bytes: `g`, `I`, `9` or `0`.
pub(crate) fn kind_of(name: &[u8], bytes: &[u8]) -> u8
    ensures { result ≡ kind_of name.now bytes.now }
{
    if has_ending(b".gif", name) {
        b'g'
    } else if is_image(name) {
        b'I'
    } else if has_nul(bytes) {
        b'9'
    } else {
        b'0'
    }
}
