//! Mistakes in files that aren't menu files: texts that aren't texts, menus of other servers.

ghost use Rattle.std.specs.Prelude.{◌≡◌, ◌∷◌, IfOk, OnOk};
ghost use Rattle.std.specs.List.{list_any};
ghost use Rattle.std.specs.Str.{is_utf8};
ghost use Rattle.gopher_tree.specs.Kind.{has_ending};
ghost use Rattle.gopher_scope.specs.Lines.{Puts};
ghost use Rattle.gopher_check.specs.Script.{lent_paths};
ghost use Rattle.gopher_check.specs.TextWarning.{AreTextMistakes, mistakes_at, file_mistake, has_ending_among, raw_endings, is_foreign_menu, path_mistake, sent_text_mistake};

use gopher_item::NoMemory;
use gopher_tree::{Node, Tree};
use std::alloc::Global;
use std::marker::Model;
use std::str;

const GOPHERMAP: &[u8] = b"gophermap";

// Endings of names of archives, documents, sounds, films, images, fonts and programs.
const RAW_ENDINGS: [&[u8]; 31] = [
    b".zip", b".gz", b".tgz", b".bz2", b".xz", b".7z", b".rar", b".tar", b".jar", b".iso", b".img",
    b".exe", b".pdf", b".docx", b".odt", b".epub", b".mp3", b".ogg", b".flac", b".wav", b".mp4",
    b".webm", b".mov", b".avi", b".webp", b".bmp", b".tif", b".tiff", b".ico", b".woff", b".ttf",
];

/// What is wrong with a file that isn't a menu file.
#[derive(Clone, Copy, Debug, PartialEq, Eq)]
pub enum TextMistake {
    /// The file is a menu of another server (`gophermap`), which this one sends as a text.
    ForeignMenu,
    /// The name ends like that of a binary file, but the file is sent as a text, so clients get it
    /// damaged.
    SentAsText,
    /// The text isn't UTF-8.
    NotUtf8,
}

/// A mistake in a file of a site.
#[derive(Debug, Drop)]
pub struct TextWarning<'a> {
    /// The path of the file.
    pub path: &'a [u8],
    /// What is wrong.
    pub mistake: TextMistake,
}

impl<'a> Model for TextWarning<'a> {
    ghost use Rattle.gopher_check.specs.Script.{lent_paths};
    ghost use Rattle.gopher_check.specs.TextWarning.{TextWarningData};

    ghost Value = { TextWarningData };

    ghost view = { λ w. record { path = w.path.now; mistake = w.mistake } };
}

// Whether the name ends with these bytes, with ASCII letters in any case.
fn has_ending(ending: &[u8], name: &[u8]) -> bool
    ensures { result ≡ has_ending ending.now name.now }
{
    let start = name.len().saturating_sub(ending.len());
    name[start..].eq_ignore_ascii_case(ending)
}

// Whether the file is a menu of another server.
fn is_foreign_menu(path: &[u8]) -> bool
    ensures { result ≡ is_foreign_menu path.now }
{
    path == GOPHERMAP || path.ends_with(b"/gophermap") || has_ending(b".gophermap", path)
}

// Whether the name has one of these endings.
fn has_ending_among(endings: &[&[u8]], path: &[u8]) -> bool
    ensures { result ≡ list_any (λ ending. has_ending ending.now path.now) endings.now }
{
    endings.iter().any(|ending| has_ending(ending, path))
}

// Whether the name ends like that of a file that isn't a text.
fn has_raw_ending(path: &[u8]) -> bool
    ensures { result ≡ has_ending_among raw_endings path.now }
{
    has_ending_among(&RAW_ENDINGS, path)
}

// Whether the bytes are UTF-8.
fn is_utf8(bytes: &[u8]) -> bool
    ensures { result ≡ is_utf8 bytes.now }
{
    str::from_utf8(bytes).is_ok()
}

// The mistake in a file that is sent as a text.
fn sent_text_mistake(path: &[u8], bytes: &[u8]) -> Option<TextMistake>
    ensures { result ≡ sent_text_mistake path.now bytes.now }
{
    if has_raw_ending(path) {
        return Some(TextMistake::SentAsText);
    }
    (!is_utf8(bytes)).then_some(TextMistake::NotUtf8)
}

// The first mistake in a file of this type that isn't a menu file.
fn file_mistake(path: &[u8], kind: u8, bytes: &[u8]) -> Option<TextMistake>
    ensures { result ≡ file_mistake path.now kind bytes.now }
{
    if is_foreign_menu(path) {
        return Some(TextMistake::ForeignMenu);
    }
    if kind != b'0' {
        return None;
    }
    sent_text_mistake(path, bytes)
}

// The mistake in what the selector of a path names; `selector` is a slash and the path.
fn path_mistake<'a>(tree: &Tree, selector: &[u8], path: &'a [u8]) -> Option<TextWarning<'a>>
    requires { selector.now ≡ 47 ∷ path.now }
    ensures { result ≡ path_mistake tree.now path.now }
{
    let Some(Node::File(kind, bytes)) = tree.find(selector) else {
        return None;
    };
    let mistake = file_mistake(path, kind, bytes)?;
    Some(TextWarning { path, mistake })
}

// Appends the mistakes at these paths.
fn push_paths<'a>(
    tree: &Tree,
    selector: &mut Vec<u8>,
    paths: &[&'a [u8]],
    out: &mut Vec<TextWarning<'a>>,
) -> Result<(), NoMemory>
    ensures { Puts (mistakes_at tree.now (lent_paths paths.now)) out.old out.new result }
{
    for path in paths {
        set_selector(path, selector)?;
        if let Some(warning) = path_mistake(tree, selector, path) {
            out.push(warning)?;
        }
    }
    Ok(())
}

// Makes the selector of a path.
pub(crate) fn set_selector(path: &[u8], selector: &mut Vec<u8>) -> Result<(), NoMemory>
    ensures { OnOk result (selector.new.items ≡ 47 ∷ path.now) }
{
    selector.clear();
    selector.push(b'/')?;
    selector.extend_from_slice(path)?;
    Ok(())
}

/// Returns the mistakes in the site's files that aren't menu files, in the byte order of their
/// paths.
pub fn text_warnings<'a>(alloc: Global, tree: &'a Tree) -> Result<Vec<TextWarning<'a>>, NoMemory>
    ensures { IfOk result (λ found. AreTextMistakes tree.now found.items) }
{
    let paths = tree.paths(alloc)?;
    let mut selector = Vec::new(alloc);
    let mut found = Vec::new(alloc);
    push_paths(tree, &mut selector, &paths, &mut found)?;
    Ok(found)
}
