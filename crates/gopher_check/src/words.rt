//! The words of warnings: a line each, which says what is wrong and what to do.

use crate::crawl_warning::{CrawlWarning, RuleMistake, SeedMistake};
use crate::menu_warning::{MenuMistake, MenuWarning};
use crate::text_warning::{TextMistake, TextWarning};
use gopher_item::{NoMemory, Rule};
use gopher_scope::{Settings, push_shown};
use itoa::Buffer;

type Pushed = Result<(), NoMemory>;

// Appends these texts.
fn push_texts(texts: &[&[u8]], out: &mut Vec<u8>) -> Pushed {
    for text in texts {
        out.extend_from_slice(text)?;
    }
    Ok(())
}

// Appends a text, bytes in their shown form, and the end of the line.
fn push_end(text: &[u8], bytes: &[u8], out: &mut Vec<u8>) -> Pushed {
    out.extend_from_slice(text)?;
    push_shown(bytes, out)?;
    out.push(b'\n')?;
    Ok(())
}

fn push_number(number: usize, out: &mut Vec<u8>) -> Pushed {
    let mut digits = Buffer::new();
    out.extend_from_slice(digits.format(number).as_bytes())?;
    Ok(())
}

/// Appends a text, a number and another text.
pub fn push_counted(front: &[u8], number: usize, end: &[u8], out: &mut Vec<u8>) -> Pushed {
    out.extend_from_slice(front)?;
    push_number(number, out)?;
    out.extend_from_slice(end)?;
    Ok(())
}

// Appends the path of a file below the root.
fn push_path(root: &str, path: &[u8], out: &mut Vec<u8>) -> Pushed {
    push_shown(root.as_bytes(), out)?;
    out.push(b'/')?;
    push_shown(path, out)?;
    Ok(())
}

// What a line should lead to that has this type.
fn target_words(kind: u8) -> &'static [u8] {
    match kind {
        b'1' => b" leads to a folder, so its type has to be 1: ",
        b'7' => b" leads to the search, so its type has to be 7: ",
        b'9' => b" leads to a binary file, so its type has to be 9: ",
        b'g' => b" leads to a GIF image, so its type has to be g: ",
        b'I' => b" leads to an image, so its type has to be I: ",
        _ => b" leads to a text, so its type has to be 0: ",
    }
}

// What is wrong with a line of a menu file, or with the file.
fn menu_words(mistake: MenuMistake) -> &'static [u8] {
    match mistake {
        MenuMistake::NoLink => {
            b" has no link; a link is a type, a text, a TAB and a selector on a line"
        }
        MenuMistake::ByteOrderMark => {
            b" begins with a byte order mark, which clients show: save the file without one"
        }
        MenuMistake::BlanksForTab => {
            b" has blanks where a link has a TAB, so it is shown as a text: type a TAB there"
        }
        MenuMistake::WrongType(kind) => target_words(kind),
        MenuMistake::NotSearch => {
            b" offers a search, but only the selector /search is one, and this is sent as it is: "
        }
    }
}

/// Appends the line of a warning of a menu file; `root` is the folder of the site.
pub fn push_menu_warning(root: &str, warning: &MenuWarning<'_>, out: &mut Vec<u8>) -> Pushed {
    out.extend_from_slice(b"warning: ")?;
    if warning.line > 0 {
        out.extend_from_slice(b"line ")?;
        push_number(warning.line, out)?;
        out.extend_from_slice(b" of ")?;
    }
    push_path(root, warning.path, out)?;
    push_end(menu_words(warning.mistake), warning.selector, out)
}

/// Appends the line of a warning of a file; `root` is the folder of the site.
pub fn push_text_warning(root: &str, warning: &TextWarning<'_>, out: &mut Vec<u8>) -> Pushed {
    let words: &[u8] = match warning.mistake {
        TextMistake::ForeignMenu => {
            b" is a menu of another server, sent here as a text: convert it to .menu, or remove it"
        }
        TextMistake::SentAsText => {
            b" contains no NUL, so it is sent as a text and arrives damaged: pack it with tar"
        }
        TextMistake::NotUtf8 => b" isn't UTF-8: convert it, for example with iconv -t UTF-8",
    };
    out.extend_from_slice(b"warning: ")?;
    push_path(root, warning.path, out)?;
    push_end(words, b"", out)
}

/// Appends the warning of a program in the site, at a path below `root`.
pub fn push_program_warning(root: &str, path: &[u8], out: &mut Vec<u8>) -> Pushed {
    out.extend_from_slice(b"warning: ")?;
    push_path(root, path, out)?;
    push_end(
        b" is a program, and hole runs none but sends its source: remove it, or run chmod -x",
        b"",
        out,
    )
}

// Appends the name of an array and an index in it.
fn push_entry(array: &[u8], index: usize, out: &mut Vec<u8>) -> Pushed {
    push_texts(&[b"warning: ", array, b"["], out)?;
    push_number(index, out)?;
    out.push(b']')?;
    Ok(())
}

// Appends that a host is the reader's own machine.
fn push_loopback(settings: &Settings, host: &[u8], out: &mut Vec<u8>) -> Pushed {
    out.extend_from_slice(b" has the host ")?;
    push_shown(host, out)?;
    push_end(
        b", each reader's own machine: write the server's, ",
        settings.home.host(),
        out,
    )
}

// Appends the warning of a seed.
fn push_seed(settings: &Settings, index: usize, mistake: SeedMistake, out: &mut Vec<u8>) -> Pushed {
    let Some(seed) = settings.seeds.get(index) else {
        return Ok(());
    };
    push_entry(b"seeds", index, out)?;
    match mistake {
        SeedMistake::Loopback => push_loopback(settings, seed.host(), out),
        SeedMistake::NoSlash => push_end(
            b" isn't found here, because its selector has no slash before it: ",
            seed.selector(),
            out,
        ),
        SeedMistake::Search => push_end(b" is the search, which has no page: remove it", b"", out),
        SeedMistake::Missing => push_end(b" isn't found here: ", seed.selector(), out),
    }
}

// Appends what is wrong with a rule.
fn push_rule_words(
    settings: &Settings,
    rule: &Rule,
    mistake: RuleMistake,
    out: &mut Vec<u8>,
) -> Pushed {
    match mistake {
        RuleMistake::Loopback => push_loopback(settings, rule.host(), out),
        RuleMistake::NoSlash => push_end(
            b" covers nothing here, because its prefix has no slash before it: ",
            rule.prefix(),
            out,
        ),
        RuleMistake::MenuLeftOut => push_end(
            b" covers what is in a folder but not its menu: drop the slash at the end of ",
            rule.prefix(),
            out,
        ),
        RuleMistake::DeniesAll => push_end(
            b" denies every page here, at most the root is left: write a longer prefix",
            b"",
            out,
        ),
    }
}

// Appends the warning of a rule, if there is one with this index.
fn push_rule(
    settings: &Settings,
    (array, index): (&[u8], usize),
    rules: &[Rule],
    mistake: RuleMistake,
    out: &mut Vec<u8>,
) -> Pushed {
    let Some(rule) = rules.get(index) else {
        return Ok(());
    };
    push_entry(array, index, out)?;
    push_rule_words(settings, rule, mistake, out)
}

/// Appends the line of a warning of the settings of a crawl.
pub fn push_crawl_warning(settings: &Settings, warning: CrawlWarning, out: &mut Vec<u8>) -> Pushed {
    let (allow, deny) = settings.scope.rules();
    match warning {
        CrawlWarning::UnreachableHost => push_end(
            b"warning: host has to be the name or address that readers connect to; --listen takes \
              the address to listen at: ",
            settings.home.host(),
            out,
        ),
        CrawlWarning::NoOwnSeed => push_end(
            b"warning: no seed is of this server, so searches find its pages only by links from \
              others: add a seed with its host and port",
            b"",
            out,
        ),
        CrawlWarning::Seed(index, mistake) => push_seed(settings, index, mistake, out),
        CrawlWarning::Allow(index, mistake) => {
            push_rule(settings, (b"allow", index), allow, mistake, out)
        }
        CrawlWarning::Deny(index, mistake) => {
            push_rule(settings, (b"deny", index), deny, mistake, out)
        }
    }
}
