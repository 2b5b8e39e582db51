//! `Page`: what a catalogue keeps of the reply of a place (`Page::of`).

ghost use Rattle.std.specs.Prelude.{◌≡◌, ◌≤◌, false, length, IfOk};
ghost use Rattle.std.specs.Arc.{arc_value};
ghost use Rattle.std.specs.List.{sum_by};
ghost use Rattle.gopher_item.specs.Places.{IsSum, places_lent};
ghost use Rattle.gopher_page.specs.Counts.{count_meant};
ghost use Rattle.gopher_page.specs.Page.{is_large, links_kept, links_size, menu_page, page_of, page_size, text_page, words_size, IsOfLines};

use crate::counting::count_words;
use crate::counts::Counts;
use crate::line::PageLines;
use crate::links::links_of_menu;
use crate::title::title_of;
use gopher_item::{ByteString, EachPlace, NoMemory, Place, Places, Scope};
use gopher_text::MAX_REPLY;
use std::alloc::Global;
use std::marker::Model;
use std::sync::Arc;

#[derive(Debug, Drop)]
struct Parts {
    place: Arc<Place>,
    title: ByteString,
    // `None`: the page has no links. Most pages have none.
    links: Option<Arc<Places>>,
    counts: Counts,
}

impl Model for Parts {
    ghost use Rattle.std.specs.Prelude.{◌≤◌, length};
    ghost use Rattle.std.specs.Arc.{arc_value};
    ghost use Rattle.gopher_page.specs.Page.{PageData, page_with, links_kept};
    ghost use Rattle.gopher_text.specs.declared.reply_reader.TheConstants.{MAX_REPLY};

    ghost Value = { PageData };

    ghost view = { λ p. page_with (arc_value p.place) p.title (links_kept p.links) p.counts };

    ghost invariant = { λ p. length (links_kept p.links) ≤ MAX_REPLY };
}

/// What a catalogue keeps of the reply of a place: title, links and word counts.
///
/// Copies share the parts, so a copy takes no bytes of its own. The links are packed; a frontier
/// copies those that become known places.
#[derive(Debug)]
pub struct Page {
    parts: Arc<Parts>,
}

// Written out: a derived one, and that of each part, is proved again in every crate above.
impl Drop for Page {
    fn drop(self) {
        let Self { parts: _parts } = self;
    }
}

impl Model for Page {
    ghost use Rattle.std.specs.Arc.{arc_value};
    ghost use Rattle.gopher_page.specs.Page.{PageData};

    ghost Value = { PageData };

    ghost view = { λ p. arc_value p.parts };
}

/// At most how many bytes of memory are taken for each byte of a reply while its page is made. A
/// short reply takes up to 16,384 bytes more.
///
/// Four of them are for the buffer that the reply was read into. A menu of nothing but links of 8
/// bytes takes the most: for each link 198 bytes in the set of places when that grows, and 64 for
/// its host and its selector. A text of nothing but one-byte words takes 19. A reply of 1,048,576
/// bytes (`MAX_REPLY`) takes at most 22 MiB: it has no room for that number of links of 8 bytes.
pub const BYTES_WHILE_MADE: usize = 40;

// The most bytes of memory that a page takes beside its words, its title and its links: its place,
// its events, and its part of the lists of a catalogue.
const PAGE_SIZE: usize = 512;

// A page is large if its distinct words have more bytes than this. Ordinary texts have fewer.
const LARGE: usize = 131_072;

// The most bytes that a link takes beside its selector and its host: 16 in the page, which packs
// it, and 160 as a known place.
const LINK_SIZE: usize = 176;

// The most bytes that a word of a page takes in a segment of an index, beside the word and its
// postings: its end, and the end of its posting list.
const WORD_SIZE: usize = 8;

// The bytes of a posting: a page's number and a count.
const POSTING_SIZE: usize = 3;

// The most bytes that links take in a catalogue.
fn size_of_links(links: &Places) -> usize
    ensures { IsSum (links_size links.now) result }
{
    let names = links.names_len().saturating_mul(2);
    names.saturating_add(links.len().saturating_mul(LINK_SIZE))
}

// The page of a place with these lines and links.
fn page_of_lines(
    alloc: Global,
    place: &Arc<Place>,
    lines: &PageLines<'_>,
    links: Option<Arc<Places>>,
) -> Result<Page, NoMemory>
    requires short { sum_by length lines.now ≤ MAX_REPLY }
    requires few { length (links_kept links) ≤ MAX_REPLY }
    ensures { IfOk result (IsOfLines (arc_value place.now) lines.now (links_kept links)) }
{
    let counts = count_words(alloc, lines)?;
    let parts = Parts {
        place: place.clone()?,
        title: title_of(alloc, place, lines)?,
        links,
        counts,
    };
    Ok(Page {
        parts: Arc::new(alloc, parts)?,
    })
}

fn page_of_menu(
    alloc: Global,
    scope: &Scope,
    place: &Arc<Place>,
    bytes: &[u8],
) -> Result<Page, NoMemory>
    requires small { length bytes.now ≤ MAX_REPLY }
    ensures { IfOk result (λ page. page ≡ menu_page scope.now (arc_value place.now) bytes.now) }
{
    let links = Arc::new(alloc, links_of_menu(alloc, scope, bytes)?)?;
    page_of_lines(alloc, place, &PageLines::of_menu(bytes), Some(links))
}

fn page_of_text(alloc: Global, place: &Arc<Place>, bytes: &[u8]) -> Result<Page, NoMemory>
    requires small { length bytes.now ≤ MAX_REPLY }
    ensures { IfOk result (λ page. page ≡ text_page (arc_value place.now) bytes.now) }
{
    page_of_lines(alloc, place, &PageLines::of_text(bytes), None)
}

impl Page {
    /// Makes the page of a place from its reply: `bytes`, at most 1,048,576 (`MAX_REPLY`).
    ///
    /// For a directory (type `1`) the lines are one for each entry of the menu: an item's display
    /// string or an odd line's bytes. Its links are those links of the menu that `scope` allows.
    /// For a file the lines are the decoded lines of the text, and there are no links. The counts
    /// cover the words of all lines.
    pub fn of(alloc: Global, scope: &Scope, place: &Place, bytes: &[u8]) -> Result<Page, NoMemory>
        requires { length bytes.now ≤ MAX_REPLY }
        ensures { IfOk result (λ page. page ≡ page_of scope.now place.now bytes.now) }
    {
        let place = Arc::new(alloc, place.clone()?)?;
        Page::of_shared(alloc, scope, &place, bytes)
    }

    /// Makes the page of a place as `of` does. The page shares the place.
    #[tactic(auto, using(crate::proofs::Pages::pages))]
    pub fn of_shared(
        alloc: Global,
        scope: &Scope,
        place: &Arc<Place>,
        bytes: &[u8],
    ) -> Result<Page, NoMemory>
        requires { length bytes.now ≤ MAX_REPLY }
        ensures { IfOk result (λ page. page ≡ page_of scope.now (arc_value place.now) bytes.now) }
    {
        if place.kind() == b'1' {
            page_of_menu(alloc, scope, place, bytes)
        } else {
            page_of_text(alloc, place, bytes)
        }
    }

    /// Copies the page, which shares its parts with `self`.
    pub fn share(&self) -> Result<Page, NoMemory>
        ensures { IfOk result (λ page. page ≡ self.now) }
    {
        Ok(Page {
            parts: self.parts.clone()?,
        })
    }

    /// Returns the place of the page.
    pub fn place(&self) -> &Place
        ensures { result.now ≡ self.now.place }
    {
        &self.parts.place
    }

    /// Returns the title, at most 69 bytes (`MAX_TITLE`): RFC 1436, section 3.9, asks for display
    /// strings under 70.
    ///
    /// It is the first line that contains a word or, if none does, the selector. Each control byte
    /// becomes a space, spaces at both ends are dropped, and then the first 69 bytes remain, so the
    /// last byte can be a space. If the selector leaves an empty title, the title is the first 69
    /// bytes of the host.
    pub fn title(&self) -> &[u8]
        ensures { result.now ≡ self.now.title }
    {
        self.parts.title.as_slice()
    }

    /// Returns an iterator over the links, at most 1,048,576 (`MAX_REPLY`): the allowed places that
    /// the menu names, each once, in the order of first mention.
    pub fn links(&self) -> EachPlace<'_>
        ensures links { result ≡ self.now.links }
        ensures few { length self.now.links ≤ MAX_REPLY }
    {
        EachPlace::of(self.packed_links())
    }

    /// Returns the packed list of the links. `None` means that there are none.
    pub fn packed_links(&self) -> Option<&Places>
        ensures links { places_lent result ≡ self.now.links }
        ensures few { length self.now.links ≤ MAX_REPLY }
    {
        self.parts.links.as_deref()
    }

    /// Returns the distinct words of the page in byte order, with their counts.
    pub fn counts(&self) -> &Counts
        ensures { result.now ≡ self.now.counts }
    {
        &self.parts.counts
    }

    /// Returns whether the page is large: its distinct words have over 131,072 bytes.
    ///
    /// An index doesn't copy the words of a large page; it searches them where they are.
    pub fn is_large(&self) -> bool
        ensures { result ≡ is_large self.now }
    {
        self.parts.counts.bytes_len() > LARGE
    }

    /// Returns how many bytes of memory a catalogue needs for the page, at most: its words, its
    /// title, and its links twice (in the page and as known places). The words count twice (in the
    /// page and in the index), unless the page is large. Words and places that other pages have
    /// too are counted again. At most `usize::MAX`.
    pub fn size(&self) -> usize
        ensures { IsSum (page_size self.now) result }
    {
        let size = PAGE_SIZE.saturating_add(self.parts.title.len());
        let size = size.saturating_add(self.size_of_words());
        match self.packed_links() {
            Some(links) => size.saturating_add(size_of_links(links)),
            None => size,
        }
    }

    // The most bytes that the words take in a catalogue.
    fn size_of_words(&self) -> usize
        ensures { IsSum (words_size self.now) result }
    {
        let counts = &self.parts.counts;
        let words = counts.size();
        if self.is_large() {
            return words;
        }
        let ends = counts.len().saturating_mul(WORD_SIZE);
        let postings = counts.postings_len().saturating_mul(POSTING_SIZE);
        let table = ends.saturating_add(postings);
        words.saturating_mul(2).saturating_add(table)
    }

    /// Returns how often `word` occurs in the page.
    pub fn count(&self, word: &[u8]) -> u32
        ensures { result ≡ count_meant false word.now self.now.counts }
    {
        self.parts.counts.count_meant(false, word)
    }
}
