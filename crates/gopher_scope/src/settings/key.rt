//! The keys of the settings, `Key`, with the row of each.

ghost use Rattle.std.specs.Prelude.{◌≡◌};
ghost use Rattle.gopher_scope.specs.Rows.{key_name, key_row};

use super::row::{Form, Row, TextKind};
use super::tables::Element;
use gopher_item::{MAX_PLACES, MAX_PORT, MAX_TRIES};
use std::fmt;

/// A key of the settings. Keys are checked in this order.
#[derive(Clone, Copy, Debug, PartialEq, Eq)]
pub enum Key {
    /// `host`: the server's own host, a string; required.
    Host,
    /// `port`: the server's port, an integer from 1 to 65,535; 70 if missing.
    Port,
    /// `root`: the folder to serve, a string that isn't empty; required.
    Root,
    /// `seeds`: the places from which the crawl starts, at most 256 tables; none if missing.
    Seeds,
    /// `allow`: the rules for places that the crawl may visit, at most 256 tables; none if missing.
    Allow,
    /// `deny`: the rules for places that the crawl may not visit, at most 256 tables; none if
    /// missing.
    Deny,
    /// `places`: the most places that the crawl knows, from 1 to 65,536; 4,096 if missing.
    Places,
    /// `workers`: the number of workers that crawl, from 1 to 16; 4 if missing.
    Workers,
    /// `threads`: the number of server threads, from 1 to 8; 2 if missing.
    Threads,
    /// `tries`: how often the crawl claims a place at most, from 1 to 5; 1 if missing.
    Tries,
}

impl Key {
    /// All keys, in the order in which they are checked.
    pub const ALL: [Key; 10] = [
        Key::Host,
        Key::Port,
        Key::Root,
        Key::Seeds,
        Key::Allow,
        Key::Deny,
        Key::Places,
        Key::Workers,
        Key::Threads,
        Key::Tries,
    ];

    /// Returns the row of the key.
    pub(crate) fn row(self) -> Row
        ensures { result ≡ key_row self }
    {
        let (name, form) = match self {
            Key::Host => ("host", Form::Text(TextKind::Host)),
            Key::Port => ("port", Form::Integer(70, MAX_PORT)),
            Key::Root => ("root", Form::Text(TextKind::Path)),
            Key::Seeds => ("seeds", Form::Tables(Element::Seed)),
            Key::Allow => ("allow", Form::Tables(Element::Rule)),
            Key::Deny => ("deny", Form::Tables(Element::Rule)),
            Key::Places => ("places", Form::Integer(4_096, MAX_PLACES)),
            Key::Workers => ("workers", Form::Integer(4, 16)),
            Key::Threads => ("threads", Form::Integer(2, 8)),
            Key::Tries => ("tries", Form::Integer(1, MAX_TRIES)),
        };
        Row { name, form }
    }

    /// Returns the name of the key in the text.
    pub fn name(self) -> &'static str
        ensures { result.now ≡ key_name self }
    {
        self.row().name
    }
}

impl fmt::Display for Key {
    fn fmt<W: fmt::Write>(&self, f: &mut fmt::Formatter<W>) -> fmt::Result {
        f.write_str(self.name())
    }
}
