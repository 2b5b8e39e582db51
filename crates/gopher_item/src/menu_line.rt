//! `MenuLine`: the type, display string, selector, host and port of an item.

ghost use Rattle.std.specs.Prelude.{◌≡◌, IfOk, IfNone};
ghost use Rattle.std.specs.Cmp;
ghost use Rattle.gopher_item.specs.Laws.{same_line_equiv};
ghost use Rattle.gopher_item.specs.Place.{MakesPlace};
ghost use Rattle.gopher_item.specs.MenuLine.{FieldsStandAt, IsMenuLine, IsMenuLineWithAnyPort, MakesMenuLine, is_bad_type, menu_line_fault, menu_line_of, same_line};

use crate::fault::ItemFault;
use crate::fields::{has_special, is_control, is_host, is_selector};
use crate::place::Place;
use crate::writing::push_parts;
use bstr::BStr;
use gopher_bytes::{ByteString, NoMemory};
use std::alloc::Global;
use std::fmt;
use std::marker::Model;
use std::sync::Arc;

/// An item of a menu, read or made (RFC 1436, section 2, and appendix: DirEntity).
///
/// The type and the fields contain no TAB, CR, LF and NUL, and the host has no space at its ends. A
/// line that was read can have an empty host. The lines of a menu that was read share its bytes,
/// which stay allocated as long as one of the lines exists.
#[derive(Drop)]
pub struct MenuLine {
    kind: u8,
    port: u16,
    // The positions of the display string, the selector and the host in the text, one byte apart.
    start: usize,
    display_end: usize,
    selector_end: usize,
    end: usize,
    text: Arc<ByteString>,
}

impl Model for MenuLine {
    ghost use Rattle.std.specs.Arc.{arc_value};
    ghost use Rattle.gopher_item.specs.MenuLine.{MenuLineData, AreCutsOfLine, cuts_at, line_in};

    ghost Value = { MenuLineData };

    ghost view = { λ m. line_in m.kind m.port
        (cuts_at m.start m.display_end m.selector_end m.end) (arc_value m.text) };

    ghost invariant = { λ m. AreCutsOfLine m.kind m.port
        (cuts_at m.start m.display_end m.selector_end m.end) (arc_value m.text) };
}

/// Returns whether a line can't be made with this type: a control byte, a space or a period.
pub fn is_bad_type(kind: u8) -> bool
    ensures { result ≡ is_bad_type kind }
{
    is_control(kind) || kind == b' ' || kind == b'.'
}

fn menu_line_fault(kind: u8, display: &[u8], selector: &[u8], host: &[u8]) -> Option<ItemFault>
    ensures fault { result ≡ menu_line_fault kind display.now selector.now host.now }
    ensures plain { IfNone result (IsMenuLineWithAnyPort kind display.now selector.now host.now) }
{
    if !is_selector(selector) {
        Some(ItemFault::BadSelector)
    } else if !is_host(host) {
        Some(ItemFault::BadHost)
    } else if has_special(display) {
        Some(ItemFault::BadDisplay)
    } else if is_bad_type(kind) {
        Some(ItemFault::BadType)
    } else {
        None
    }
}

impl MenuLine {
    // Makes the line of valid fields. The text contains them, with the type at `start`.
    #[tactic(auto, using(crate::proofs::MenuLines::within))]
    pub(crate) fn in_text(
        text: &Arc<ByteString>,
        start: usize,
        kind: u8,
        display: &[u8],
        selector: &[u8],
        host: &[u8],
        port: u16,
    ) -> Result<MenuLine, NoMemory>
        requires fields { IsMenuLine (menu_line_of kind display.now selector.now host.now port) }
        requires stands { FieldsStandAt text.now start kind display.now selector.now host.now }
        ensures { IfOk result (λ l. l ≡ menu_line_of kind display.now selector.now host.now port) }
    {
        // The text's length fits a `usize`, and so does each position in it.
        let _length = text.as_slice().len();
        let display_start = start + 1;
        let display_end = display_start + display.len();
        let selector_end = display_end + 1 + selector.len();
        let text = Arc::try_clone(text)?;
        Ok(MenuLine {
            kind,
            port,
            start: display_start,
            display_end,
            selector_end,
            end: selector_end + 1 + host.len(),
            text,
        })
    }

    // Makes the line of valid fields, with a text of its own.
    pub(crate) fn of_fields<'a>(
        alloc: Global,
        kind: u8,
        display: &'a [u8],
        selector: &'a [u8],
        host: &'a [u8],
        port: u16,
    ) -> Result<MenuLine, NoMemory>
        requires { IsMenuLine (menu_line_of kind display.now selector.now host.now port) }
        ensures { IfOk result (λ l. l ≡ menu_line_of kind display.now selector.now host.now port) }
    {
        let mut text = Vec::new(alloc);
        push_parts(&[&[kind], display, b"\t", selector, b"\t", host], &mut text)?;
        let text = Arc::new(alloc, ByteString::from(text))?;
        MenuLine::in_text(&text, 0, kind, display, selector, host, port)
    }

    /// Makes a line of these parts. A port of 0 is valid, for lines that name no server.
    ///
    /// # Errors
    ///
    /// The first fault in this order:
    /// - `BadSelector` (2): the selector has over 255 bytes, or contains a TAB, CR, LF or NUL
    /// - `BadHost` (3): the host is empty, has over 255 bytes, or contains a space or a control
    ///   byte
    /// - `BadDisplay` (5): the display string contains a TAB, CR, LF or NUL
    /// - `BadType` (6): the type is a control byte, a space or a period
    /// - `NoMemory` (90)
    pub fn new(
        alloc: Global,
        kind: u8,
        display: &[u8],
        selector: &[u8],
        host: &[u8],
        port: u16,
    ) -> Result<MenuLine, ItemFault>
        ensures { MakesMenuLine kind display.now selector.now host.now port result }
    {
        if let Some(fault) = menu_line_fault(kind, display, selector, host) {
            return Err(fault);
        }
        Ok(MenuLine::of_fields(alloc, kind, display, selector, host, port)?)
    }

    /// Returns the type (RFC 1436, section 3.8).
    pub fn kind(&self) -> u8
        ensures value { result ≡ self.now.kind }
        ensures plain { IsMenuLine self.now }
    {
        self.kind
    }

    /// Returns the display string, which a client shows (RFC 1436, section 3.9).
    pub fn display(&self) -> &[u8]
        ensures { result.now ≡ self.now.display }
    {
        &self.text.as_slice()[self.start..self.display_end]
    }

    /// Returns the selector, which a client sends to the host (RFC 1436, section 3.9).
    pub fn selector(&self) -> &[u8]
        ensures { result.now ≡ self.now.selector }
    {
        &self.text.as_slice()[self.display_end + 1..self.selector_end]
    }

    /// Returns the host with its case unchanged.
    pub fn host(&self) -> &[u8]
        ensures { result.now ≡ self.now.host }
    {
        &self.text.as_slice()[self.selector_end + 1..self.end]
    }

    /// Returns the port; 0 in lines that name no server.
    pub fn port(&self) -> u16
        ensures { result ≡ self.now.port }
    {
        self.port
    }

    /// Makes the place that the line names. The errors are those of `Place::new`.
    pub fn place(&self, alloc: Global) -> Result<Place, ItemFault>
        ensures { MakesPlace self.now.kind self.now.selector self.now.host self.now.port result }
    {
        let (selector, host) = (self.selector(), self.host());
        Place::new(alloc, self.kind, selector, host, self.port)
    }
}

impl fmt::Debug for MenuLine {
    fn fmt<W: fmt::Write>(&self, f: &mut fmt::Formatter<W>) -> fmt::Result {
        f.debug_struct("MenuLine")
            .field("kind", &self.kind())
            .field("display", &BStr::new(self.display()))
            .field("selector", &BStr::new(self.selector()))
            .field("host", &BStr::new(self.host()))
            .field("port", &self.port())
            .finish()
    }
}

impl PartialEq for MenuLine {
    ghost eq = { same_line };

    ghost laws = { Cmp.partial_equiv_from_equiv same_line_equiv };

    fn eq(&self, other: &MenuLine) -> bool {
        self.kind() == other.kind()
            && self.display() == other.display()
            && self.selector() == other.selector()
            && self.host() == other.host()
            && self.port() == other.port()
    }
}

impl Eq for MenuLine {
    ghost laws = { same_line_equiv };
}
