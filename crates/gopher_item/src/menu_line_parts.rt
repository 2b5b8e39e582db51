//! `MenuLineParts`: an item of a menu that lends its fields.

ghost use Rattle.std.specs.Prelude.{◌≡◌};
ghost use Rattle.gopher_item.specs.Place.{MakesPlace};
ghost use Rattle.gopher_item.specs.MenuLine.{IsMenuLine, menu_line_of};

use crate::fault::ItemFault;
use crate::place::Place;
use std::alloc::Global;
use std::marker::Model;

/// An item of a menu that was read, which lends its fields.
#[derive(Debug, Drop)]
pub struct MenuLineParts<'a> {
    kind: u8,
    display: &'a [u8],
    selector: &'a [u8],
    host: &'a [u8],
    port: u16,
}

impl<'a> Model for MenuLineParts<'a> {
    ghost use Rattle.gopher_item.specs.MenuLine.{MenuLineData, IsMenuLine, menu_line_of};

    ghost Value = { MenuLineData };

    ghost view = { λ p. menu_line_of p.kind p.display.now p.selector.now p.host.now p.port };

    ghost invariant = { λ p.
        IsMenuLine (menu_line_of p.kind p.display.now p.selector.now p.host.now p.port) };
}

impl<'a> MenuLineParts<'a> {
    // The item of valid fields.
    pub(crate) fn of_fields(
        kind: u8,
        display: &'a [u8],
        selector: &'a [u8],
        host: &'a [u8],
        port: u16,
    ) -> MenuLineParts<'a>
        requires { IsMenuLine (menu_line_of kind display.now selector.now host.now port) }
        ensures { result ≡ menu_line_of kind display.now selector.now host.now port }
    {
        MenuLineParts {
            kind,
            display,
            selector,
            host,
            port,
        }
    }

    /// Returns the display string, which a client shows (RFC 1436, section 3.9).
    pub fn display(&self) -> &'a [u8]
        ensures { result.now ≡ self.now.display }
    {
        self.display
    }

    /// Makes the place that the item names. The errors are those of `Place::new`.
    pub fn place(&self, alloc: Global) -> Result<Place, ItemFault>
        ensures { MakesPlace self.now.kind self.now.selector self.now.host self.now.port result }
    {
        Place::new(alloc, self.kind, self.selector, self.host, self.port)
    }
}
