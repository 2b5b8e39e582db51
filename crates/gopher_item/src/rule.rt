//! `Rule`: the places of one server whose selectors begin with a prefix.

ghost use Rattle.std.specs.Prelude.{◌≡◌};
ghost use Rattle.gopher_item.specs.Rule.{MakesRule, RuleData, covers};

use crate::fault::ItemFault;
use crate::fields::{is_selector, lowered_host};
use crate::place::Place;
use gopher_bytes::ByteString;
use std::alloc::Global;
use std::marker::Model;

/// The places of one server whose selectors begin with a prefix.
#[derive(Debug, Drop, PartialEq, Eq)]
pub struct Rule {
    host: ByteString,
    port: u16,
    prefix: ByteString,
}

impl Model for Rule {
    ghost use Rattle.gopher_item.specs.Rule.{RuleData};

    ghost Value = { RuleData };

    ghost view = { λ r. record { host = r.host; port = r.port; prefix = r.prefix } };

    ghost inverse = { λ d. record { host = d.host; port = d.port; prefix = d.prefix } };
}

impl Rule {
    /// Makes the rule of these parts, with the ASCII letters of the host in lower case.
    ///
    /// # Errors
    ///
    /// The first fault in this order:
    /// - `BadSelector` (2): the prefix has over 255 bytes, or contains a TAB, CR, LF or NUL
    /// - `BadHost` (3): the host is empty, has over 255 bytes, or contains a space or a control
    ///   byte
    /// - `BadPort` (4): the port is 0
    /// - `NoMemory` (90)
    pub fn new(alloc: Global, host: &[u8], port: u16, prefix: &[u8]) -> Result<Rule, ItemFault>
        ensures { MakesRule host.now port prefix.now result }
    {
        if !is_selector(prefix) {
            return Err(ItemFault::BadSelector);
        }
        let host = lowered_host(alloc, host, port)?;
        let prefix = ByteString::from_slice(alloc, prefix)?;
        Ok(Rule { host, port, prefix })
    }

    /// Returns the host in lower case.
    pub fn host(&self) -> &[u8]
        ensures { result.now ≡ self.now.host }
    {
        self.host.as_slice()
    }

    /// Returns the port, at least 1.
    pub fn port(&self) -> u16
        ensures { result ≡ self.now.port }
    {
        self.port
    }

    /// Returns the prefix of the selectors of the rule's places.
    pub fn prefix(&self) -> &[u8]
        ensures { result.now ≡ self.now.prefix }
    {
        self.prefix.as_slice()
    }

    /// Returns whether the place has the rule's host and port, and its selector begins with the
    /// rule's prefix.
    pub fn covers(&self, place: &Place) -> bool
        ensures { result ≡ covers self.now place.now }
    {
        self.host() == place.host()
            && self.port == place.port()
            && place.selector().starts_with(self.prefix())
    }
}
