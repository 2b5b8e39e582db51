//! The values of options: addresses, and numbers of bytes.

ghost use Rattle.std.specs.Prelude.{◌≡◌, ◌≢◌, ◌≤◌, ◌^◌, ℕ, List, ◌++◌, codes, IfSome, MatchOption};
ghost use Rattle.std.specs.Net.Socket.{socket_ip, socket_port};
ghost use Rattle.gopher_hole.specs.Values.{IsCut, NamesAddress, NamesBytes, NamesIp, NamesNoAddress, NamesNoIp};

use std::net::{IpAddr, Ipv6Addr, SocketAddr};

// What stands between the brackets of an argument.
fn inside_brackets(argument: &str) -> Option<&str>
    ensures { MatchOption result
        ((inside : List ℕ) → argument.now ≢ codes "[" ++ inside ++ codes "]")
        (λ inside. argument.now ≡ codes "[" ++ inside.now ++ codes "]") }
{
    let Some(rest) = argument.strip_prefix('[') else {
        return None;
    };
    rest.strip_suffix(']')
}

// The address without a port that an argument names. An IPv6 address may stand in brackets.
fn ip_of(argument: &str) -> Option<IpAddr>
    ensures { MatchOption result (NamesNoIp argument.now) (NamesIp argument.now) }
{
    if let Ok(address) = argument.parse::<IpAddr>() {
        return Some(address);
    }
    let inside = inside_brackets(argument)?;
    let Ok(address) = inside.parse::<Ipv6Addr>() else {
        return None;
    };
    Some(IpAddr::V6(address))
}

/// Returns the address that an argument names, with port 0 if it names no port.
pub fn address_of(argument: &str) -> Option<SocketAddr>
    ensures { MatchOption result (NamesNoAddress argument.now) (NamesAddress argument.now) }
{
    if let Ok(address) = argument.parse::<SocketAddr>() {
        if address.port() == 0 {
            return None;
        }
        return Some(address);
    }
    match ip_of(argument) {
        Some(ip) => Some(SocketAddr::new(ip, 0)),
        None => None,
    }
}

/// Returns the address, with this port if it has port 0.
pub fn with_port(address: SocketAddr, port: u16) -> SocketAddr
    ensures ip { socket_ip result ≡ socket_ip address }
    ensures port { socket_port address ≡ 0 → socket_port result ≡ port }
    ensures kept { socket_port address ≢ 0 → result ≡ address }
{
    if address.port() == 0 {
        SocketAddr::new(address.ip(), port)
    } else {
        address
    }
}

// The digits of an argument, and how many bytes the letter behind them stands for.
fn cut_letter(argument: &str) -> (&str, u64)
    ensures { IsCut argument.now result.0.now result.1 }
{
    if let Some(digits) = argument.strip_suffix('K') {
        return (digits, 1 << 10);
    }
    if let Some(digits) = argument.strip_suffix('M') {
        return (digits, 1 << 20);
    }
    if let Some(digits) = argument.strip_suffix('G') {
        return (digits, 1 << 30);
    }
    (argument, 1)
}

/// Returns the number of bytes that an argument names: `65536`, `64K`, `64M` or `64G`.
pub fn bytes_of(argument: &str) -> Option<u64>
    ensures { MatchOption result
        ((bytes : ℕ) → NamesBytes argument.now bytes → 2 ^ 64 ≤ bytes)
        (NamesBytes argument.now) }
{
    let (digits, unit) = cut_letter(argument);
    match digits.parse::<u64>() {
        Ok(number) => number.checked_mul(unit),
        Err(_) => None,
    }
}
