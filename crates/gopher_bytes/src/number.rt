//! Reading numbers written in ASCII digits: `read_number`.

ghost use Rattle.std.specs.Prelude.{◌≡◌, ◌≤◌, IfSome, IsTrue};
ghost use Rattle.std.specs.List.{list_all};
ghost use Rattle.std.specs.Char.{is_ascii_digit, digit_value};
ghost use Rattle.gopher_bytes.specs.Number.{is_number, number_of, value_up_to};

/// Returns the number that `digits` spell if they are one or more ASCII digits and nothing else,
/// and the number is at most `limit`.
pub fn read_number(limit: u32, digits: &[u8]) -> Option<u32>
    ensures value { result ≡ number_of limit digits.now }
    ensures bound { IfSome result (λ number. number ≤ limit) }
{
    if is_number(digits) {
        value_up_to(limit, digits)
    } else {
        None
    }
}

fn is_number(digits: &[u8]) -> bool
    ensures value { result ≡ is_number digits.now }
    ensures digits { IsTrue result → IsTrue (list_all is_ascii_digit digits.now) }
{
    !digits.is_empty() && are_digits(digits)
}

fn are_digits(bytes: &[u8]) -> bool
    ensures { result ≡ list_all is_ascii_digit bytes.now }
{
    bytes.iter().all(|byte| byte.is_ascii_digit())
}

fn value_up_to(limit: u32, digits: &[u8]) -> Option<u32>
    requires { IsTrue (list_all is_ascii_digit digits.now) }
    ensures { result ≡ value_up_to limit digits.now }
{
    let mut value: u64 = 0;
    for digit in digits {
        value = value * 10 + digit_value(*digit);
        if value > u64::from(limit) {
            return None;
        }
    }
    Some(value as u32)
}

fn digit_value(digit: u8) -> u64
    requires { IsTrue (is_ascii_digit digit) }
    ensures { result ≡ digit_value digit }
{
    u64::from(digit - b'0')
}
