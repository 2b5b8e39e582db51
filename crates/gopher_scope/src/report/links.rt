//! Lines of menu files that lead to their own server: to nothing, or to its search.

ghost use Rattle.std.specs.Prelude.{◌≡◌, map, IfOk};
ghost use Rattle.gopher_tree.specs.Files.{menu_files};
ghost use Rattle.gopher_tree.specs.Found.{lent_file};
ghost use Rattle.gopher_tree.specs.MenuFile.{written_line, line_data, server_data};
ghost use Rattle.gopher_scope.specs.Lines.{Puts, is_asked, is_own};
ghost use Rattle.gopher_scope.specs.Warnings.{is_dead, offers, menu_offers, offers_search, line_warning, menu_warnings, dead_lines};

use super::site_warning::{SiteMistake, SiteWarning};
use crate::fault::Pushed;
use gopher_item::{Home, NoMemory, first_line};
use gopher_tree::{Tree, WrittenLine, written_line};
use std::alloc::Global;
use std::marker::Model;

// The selector of the search.
const SEARCH: &[u8] = b"/search";

/// The server's address, and the tree of its files.
#[derive(Debug, Drop)]
pub struct Site<'a> {
    pub home: &'a Home,
    pub tree: &'a Tree,
}

impl<'a> Model for Site<'a> {
    ghost use Rattle.gopher_scope.specs.Warnings.{CheckedSite};

    ghost Value = { CheckedSite };

    ghost view = { λ s. record { home = s.home.now; files = s.tree.now } };
}

/// Returns whether a line of a menu is of the server with this address: it names no server, or this
/// one. `server` is the line's host, with letters in any case, and its port.
pub fn is_own(home: &Home, server: Option<(&[u8], u16)>) -> bool
    ensures { result ≡ is_own home.now (server_data server.entry) }
{
    match server {
        None => true,
        Some((host, port)) => port == home.port() && host.eq_ignore_ascii_case(home.host()),
    }
}

/// Returns whether a client asks a Gopher server for items of this type: not for texts (`i`),
/// errors (`3`) and sessions of other protocols (`2`, `8`, `T`: RFC 1436, section 3.8).
pub fn is_asked(kind: u8) -> bool
    ensures { result ≡ is_asked kind }
{
    !matches!(kind, b'i' | b'3' | b'2' | b'8' | b'T')
}

// Whether the server answers a line's selector with `Not found`.
fn is_dead(site: &Site<'_>, line: WrittenLine<'_>) -> bool
    ensures { result ≡ is_dead site.now (line_data line.entry) }
{
    is_asked(line.kind)
        && is_own(site.home, line.server)
        && !line.selector.starts_with(b"URL:")
        && line.selector != SEARCH
        && site.tree.find(line.selector).is_none()
}

// Appends the warning of a line of the menu file at a path, if it leads nowhere.
fn push_line<'a>(
    site: &Site<'_>,
    path: &'a [u8],
    number: usize,
    line: &'a [u8],
    out: &mut Vec<SiteWarning<'a>>,
) -> Pushed
    ensures { Puts (line_warning site.now path.now number line.now) out.old out.new result }
{
    if let Some(line) = written_line(line)
        && is_dead(site, line)
    {
        out.push(SiteWarning {
            path,
            line: number,
            selector: line.selector,
            mistake: SiteMistake::LeadsNowhere,
        })?;
    }
    Ok(())
}

// Appends the warnings of the menu file at a path.
fn push_menu<'a>(
    site: &Site<'_>,
    path: &'a [u8],
    menu: &'a [u8],
    out: &mut Vec<SiteWarning<'a>>,
) -> Pushed
    ensures { Puts (menu_warnings site.now (path.now, menu.now)) out.old out.new result }
{
    let mut number = 0;
    let mut rest = menu;
    while let Some((line, after)) = first_line(rest) {
        number += 1;
        push_line(site, path, number, line, out)?;
        rest = after;
    }
    Ok(())
}

/// Appends a warning for each line of the site's menu files that leads to nothing on its server.
pub fn push_dead_lines<'a>(
    site: &Site<'_>,
    menus: &[(&'a [u8], &'a [u8])],
    out: &mut Vec<SiteWarning<'a>>,
) -> Pushed
    requires { map lent_file menus.now ≡ menu_files site.now.files }
    ensures { Puts (dead_lines site.now) out.old out.new result }
{
    for menu in menus {
        push_menu(site, menu.0, menu.1, out)?;
    }
    Ok(())
}

// Whether a line leads to the search of the server with this address.
fn offers(home: &Home, line: &[u8]) -> bool
    ensures { result ≡ offers home.now (written_line line.now) }
{
    match written_line(line) {
        None => false,
        Some(line) => line.kind == b'7' && is_own(home, line.server) && line.selector == SEARCH,
    }
}

// Whether a line of a menu file leads to the search.
fn menu_offers(home: &Home, menu: &[u8]) -> bool
    ensures { result ≡ menu_offers home.now menu.now }
{
    let mut rest = menu;
    while let Some((line, after)) = first_line(rest) {
        if offers(home, line) {
            return true;
        }
        rest = after;
    }
    false
}

/// Returns whether a menu of the site offers a search; `menus` are its menu files.
pub fn offers_search(
    alloc: Global,
    site: &Site<'_>,
    menus: &[(&[u8], &[u8])],
) -> Result<bool, NoMemory>
    requires { map lent_file menus.now ≡ menu_files site.now.files }
    ensures { IfOk result (λ offered. offered ≡ offers_search site.now) }
{
    if site.tree.menu_file(alloc, b"")?.is_none() {
        return Ok(true);
    }
    for menu in menus {
        if menu_offers(site.home, menu.1) {
            return Ok(true);
        }
    }
    Ok(false)
}
