//! `PlaceUrl`, `HostPort`: places and servers in printed lines.

ghost use Rattle.std.specs.Prelude.{◌≡◌};
ghost use Rattle.gopher_hole.specs.Url.{has_colon};

use gopher_item::Place;
use percent_encoding::{AsciiSet, NON_ALPHANUMERIC, ascii_set, percent_encode};
use std::fmt;

/// The ASCII bytes that are escaped in a URL: all but letters, digits and `- . _ ~ / : @ + , =`. So
/// a shell takes a URL as it is.
pub const ESCAPED: AsciiSet = ascii_set!(
    NON_ALPHANUMERIC
        .remove(b'-')
        .remove(b'.')
        .remove(b'_')
        .remove(b'~')
        .remove(b'/')
        .remove(b':')
        .remove(b'@')
        .remove(b'+')
        .remove(b',')
        .remove(b'=')
);

// Whether a host has a colon, as an IPv6 address does.
fn has_colon(host: &[u8]) -> bool
    ensures { result ≡ has_colon host.now }
{
    host.contains(&b':')
}

// The host of a server in a URL: in brackets if it has a colon.
#[derive(Clone, Copy)]
struct UrlHost<'a> {
    host: &'a [u8],
}

impl fmt::Display for UrlHost<'_> {
    ghost use Rattle.std.specs.Prelude.{Some};
    ghost use Rattle.gopher_hole.specs.Url.{url_host};

    ghost output = { λ url. Some (url_host url.host.now) };

    fn fmt<W: fmt::Write>(&self, f: &mut fmt::Formatter<W>) -> fmt::Result {
        let name = percent_encode(self.host, ESCAPED);
        if has_colon(self.host) {
            write!(f, "[{name}]")
        } else {
            write!(f, "{name}")
        }
    }
}

/// The host and the port of a place's server, as a URL has them: `HOST:PORT`.
#[derive(Clone, Copy)]
pub struct HostPort<'a> {
    place: &'a Place,
}

impl<'a> HostPort<'a> {
    /// Takes a place of the server.
    pub fn of(place: &'a Place) -> HostPort<'a>
        ensures { result.place.now ≡ place.now }
    {
        HostPort { place }
    }
}

impl fmt::Display for HostPort<'_> {
    ghost use Rattle.std.specs.Prelude.{Some};
    ghost use Rattle.gopher_hole.specs.Url.{host_port};

    ghost output = { λ server. Some (host_port server.place.now) };

    fn fmt<W: fmt::Write>(&self, f: &mut fmt::Formatter<W>) -> fmt::Result {
        let host = UrlHost {
            host: self.place.host(),
        };
        let port = self.place.port();
        write!(f, "{host}:{port}")
    }
}

/// The URL of a place (RFC 4266): `gopher://HOST:PORT/`, its type and its selector, with each byte
/// as `%XX` that isn't a letter, a digit or one of `- . _ ~ / : @ + , =`.
#[derive(Clone, Copy)]
pub struct PlaceUrl<'a> {
    place: &'a Place,
}

impl<'a> PlaceUrl<'a> {
    /// Takes a place.
    pub fn of(place: &'a Place) -> PlaceUrl<'a>
        ensures { result.place.now ≡ place.now }
    {
        PlaceUrl { place }
    }
}

impl fmt::Display for PlaceUrl<'_> {
    ghost use Rattle.std.specs.Prelude.{Some};
    ghost use Rattle.gopher_hole.specs.Url.{url_of};

    ghost output = { λ url. Some (url_of url.place.now) };

    fn fmt<W: fmt::Write>(&self, f: &mut fmt::Formatter<W>) -> fmt::Result {
        let server = HostPort::of(self.place);
        let kind = [self.place.kind()];
        let kind = percent_encode(&kind, ESCAPED);
        let selector = percent_encode(self.place.selector(), ESCAPED);
        write!(f, "gopher://{server}/{kind}{selector}")
    }
}
