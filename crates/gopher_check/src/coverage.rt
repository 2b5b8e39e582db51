//! `coverage_of`: which texts of a site its crawl reaches.

ghost use Rattle.std.specs.Prelude.{◌≡◌, [], ◌∷◌, ◌++◌, map, IfOk, OnOk};
ghost use Rattle.gopher_item.specs.Place.{place_of};
ghost use Rattle.gopher_check.specs.Coverage.{Covers, finds_menu, finds_root_twice, is_text_at, text_place, texts_among, unreached_among, unreached_data};

use crate::reach::{Reach, Reason};
use gopher_catalogue::Catalogue;
use gopher_item::{Home, NoMemory, Place};
use gopher_tree::{Node, Tree};
use std::alloc::Global;

/// A text that a crawl doesn't reach.
#[derive(Clone, Copy, Debug)]
pub struct Unreached<'a> {
    /// Its path below the root, without a leading slash.
    pub path: &'a [u8],
    /// Why the crawl doesn't reach it.
    pub reason: Reason,
}

/// What a crawl reaches of a site.
#[derive(Debug, Drop)]
pub struct Coverage<'a> {
    /// The number of texts: files of type `0` (RFC 1436, section 3.8) that aren't menu files.
    pub texts: usize,
    /// The number of texts whose pages the crawl found.
    pub reached: usize,
    /// The other texts, in byte order of their paths.
    pub unreached: Vec<Unreached<'a>>,
    /// Whether the crawl found the root twice, with an empty selector and with `/`.
    pub root_twice: bool,
}

// The selector of a path.
fn selector_of(alloc: Global, path: &[u8]) -> Result<Vec<u8>, NoMemory>
    ensures { IfOk result (λ selector. selector.items ≡ 47 ∷ path.now) }
{
    let mut selector = Vec::from_slice(alloc, b"/")?;
    selector.extend_from_slice(path)?;
    Ok(selector)
}

// Whether a text is at a path.
fn is_text_at(alloc: Global, tree: &Tree, path: &[u8]) -> Result<bool, NoMemory>
    ensures { IfOk result (λ is. is ≡ is_text_at tree.now path.now) }
{
    let selector = selector_of(alloc, path)?;
    match tree.find(&selector) {
        Some(Node::File(kind, _)) => Ok(kind == b'0'),
        _ => Ok(false),
    }
}

// The paths of texts among these paths.
fn texts_among<'a>(
    alloc: Global,
    tree: &Tree,
    paths: &[&'a [u8]],
) -> Result<Vec<&'a [u8]>, NoMemory>
    ensures { IfOk result (λ texts. map (λ path. path.now) texts.items
        ≡ texts_among tree.now (map (λ path. path.now) paths.now)) }
{
    let mut texts = Vec::new(alloc);
    for path in paths {
        if is_text_at(alloc, tree, path)? {
            texts.push(*path)?;
        }
    }
    Ok(texts)
}

// The place of this server with a type and a selector.
fn own_place(alloc: Global, home: &Home, kind: u8, selector: &[u8]) -> Result<Place, NoMemory>
    ensures { IfOk result
        (λ place. place ≡ place_of kind selector.now home.now.host home.now.port) }
{
    match Place::new(alloc, kind, selector, home.host(), home.port()) {
        Ok(place) => Ok(place),
        // For the prover: the selectors of a tree and the parts of an address are valid.
        Err(_fault) => Err(NoMemory),
    }
}

// The place of the text at a path.
fn text_place(alloc: Global, home: &Home, path: &[u8]) -> Result<Place, NoMemory>
    ensures { IfOk result (λ place. place ≡ text_place home.now path.now) }
{
    own_place(alloc, home, b'0', &selector_of(alloc, path)?)
}

// Appends the text at a path, if the crawl doesn't reach it.
fn push_unreached<'a>(
    alloc: Global,
    home: &Home,
    reach: &Reach<'_>,
    path: &'a [u8],
    unreached: &mut Vec<Unreached<'a>>,
) -> Result<(), NoMemory>
    ensures { OnOk result (map unreached_data unreached.new.items
        ≡ map unreached_data unreached.old.items
        ++ unreached_among home.now reach.now (path.now ∷ [])) }
{
    let place = text_place(alloc, home, path)?;
    if let Some(reason) = reach.reason(&place) {
        unreached.push(Unreached { path, reason })?;
    }
    Ok(())
}

// The texts at these paths that the crawl doesn't reach.
fn unreached_among<'a>(
    alloc: Global,
    home: &Home,
    reach: &Reach<'_>,
    texts: &[&'a [u8]],
) -> Result<Vec<Unreached<'a>>, NoMemory>
    ensures { IfOk result (λ unreached. map unreached_data unreached.items
        ≡ unreached_among home.now reach.now (map (λ path. path.now) texts.now)) }
{
    let mut unreached = Vec::new(alloc);
    for path in texts {
        push_unreached(alloc, home, reach, path, &mut unreached)?;
    }
    Ok(unreached)
}

// Whether the crawl found a menu of this server with this selector.
fn finds_menu(
    alloc: Global,
    home: &Home,
    reach: &Reach<'_>,
    selector: &[u8],
) -> Result<bool, NoMemory>
    ensures { IfOk result (λ found. found ≡ finds_menu home.now reach.now selector.now) }
{
    Ok(reach.finds(&own_place(alloc, home, b'1', selector)?))
}

// Whether the crawl found the root with an empty selector and with a slash.
fn finds_root_twice(alloc: Global, home: &Home, reach: &Reach<'_>) -> Result<bool, NoMemory>
    ensures { IfOk result (λ twice. twice ≡ finds_root_twice home.now reach.now) }
{
    let empty = finds_menu(alloc, home, reach, b"")?;
    let slash = finds_menu(alloc, home, reach, b"/")?;
    Ok(empty && slash)
}

/// Returns which texts of a site its crawl reaches: those whose pages the crawl found. The place of
/// a text is of this server, has type `0`, and its selector is a slash and the path.
///
/// `crawl` is a finished crawl of the site, as `crawl_site` returns it.
///
/// # Errors
///
/// `NoMemory` (90).
pub fn coverage_of<'a>(
    alloc: Global,
    tree: &'a Tree,
    home: &Home,
    crawl: &Catalogue,
) -> Result<Coverage<'a>, NoMemory>
    ensures { IfOk result (Covers tree.now home.now crawl.now) }
{
    let reach = Reach::of(alloc, crawl)?;
    let paths = tree.paths(alloc)?;
    let texts = texts_among(alloc, tree, &paths)?;
    let unreached = unreached_among(alloc, home, &reach, &texts)?;
    let root_twice = finds_root_twice(alloc, home, &reach)?;
    Ok(Coverage {
        texts: texts.len(),
        reached: texts.len() - unreached.len(),
        unreached,
        root_twice,
    })
}
