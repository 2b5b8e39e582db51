//! Mistakes in the settings of a crawl: its host, seeds and rules.

ghost use Rattle.std.specs.Prelude.{◌≡◌, ◌∷◌, [], IfOk};
ghost use Rattle.std.specs.List.{list_any};
ghost use Rattle.gopher_scope.specs.Lines.{Puts};
ghost use Rattle.gopher_scope.specs.Settings.{settings_data};
ghost use Rattle.gopher_tree.specs.Reply.{named};
ghost use Rattle.gopher_check.specs.CrawlWarning.{has_one_colon, is_more_than_host, is_loopback, is_unreachable, misleads, is_of_server, lacks_slash, is_own_seed, own_seed_mistake, seed_mistake, is_own_rule, is_folder_named, covers_menu, leaves_out_menu, own_allow_mistake, allow_mistake, begins_all, own_deny_mistake, deny_mistake, lacks_own_seed, found_if, seed_mistakes, allow_mistakes, deny_mistakes, crawl_mistakes};

use gopher_item::{Home, NoMemory, Place, Rule};
use gopher_scope::Settings;
use gopher_tree::{Node, Tree};
use std::alloc::Global;

// The selector of the search.
const SEARCH: &[u8] = b"/search";

const LOOPBACK: &[u8] = b"::1";

// The addresses that mean all addresses of a machine.
const ALL_ADDRESSES: &[u8] = b"0.0.0.0";

const ALL_SIX: &[u8] = b"::";

/// What is wrong with a seed.
#[derive(Clone, Copy, Debug, PartialEq, Eq)]
pub enum SeedMistake {
    /// Its host is a name of the reader's own machine, although the server has another name.
    Loopback,
    /// No selector of this server begins so: it has no slash at its beginning.
    NoSlash,
    /// It is this server's search, which has no page.
    Search,
    /// This server replies to it with `Not found`.
    Missing,
}

/// What is wrong with an allow rule or a deny rule.
#[derive(Clone, Copy, Debug, PartialEq, Eq)]
pub enum RuleMistake {
    /// Its host is a name of the reader's own machine, although the server has another name.
    Loopback,
    /// No selector of this server begins with its prefix, which has no slash at its beginning.
    NoSlash,
    /// An allow rule covers what is in a folder of this server, and no rule covers the folder's
    /// menu.
    MenuLeftOut,
    /// A deny rule covers all of this server, or all but its root.
    DeniesAll,
}

/// A mistake in the settings of a crawl. Indices of seeds and rules count from 0.
#[derive(Clone, Copy, Debug, PartialEq, Eq)]
pub enum CrawlWarning {
    /// Readers can't connect to `host`, to which all menu lines of the server lead.
    UnreachableHost,
    /// No seed is of this server.
    NoOwnSeed,
    /// The seed with this index has a mistake.
    Seed(usize, SeedMistake),
    /// The allow rule with this index has a mistake.
    Allow(usize, RuleMistake),
    /// The deny rule with this index has a mistake.
    Deny(usize, RuleMistake),
}

// Whether the host is a name of the machine that connects to it.
fn is_loopback(host: &[u8]) -> bool
    ensures { result ≡ is_loopback host.now }
{
    host.eq_ignore_ascii_case(b"localhost") || host.starts_with(b"127.") || host == LOOPBACK
}

// Whether the text has one colon, as a host and a port have; a numerical address has none or more.
fn has_one_colon(host: &[u8]) -> bool
    ensures { result ≡ has_one_colon host.now }
{
    host.iter().filter(|byte| **byte == b':').count() == 1
}

// Whether the text is a URL, or a host and a port.
fn is_more_than_host(host: &[u8]) -> bool
    ensures { result ≡ is_more_than_host host.now }
{
    host.contains(&b'/') || has_one_colon(host)
}

// Whether readers can't connect to the host.
fn is_unreachable(host: &[u8]) -> bool
    ensures { result ≡ is_unreachable host.now }
{
    host == ALL_ADDRESSES || host == ALL_SIX || host.starts_with(b"[") || is_more_than_host(host)
}

// Whether a hit at this host leads readers to their own machine.
fn misleads(home: &Home, host: &[u8]) -> bool
    ensures { result ≡ misleads home.now host.now }
{
    is_loopback(host) && !is_loopback(home.host())
}

// Whether the host and the port are those of the server.
fn is_of_server(home: &Home, host: &[u8], port: u16) -> bool
    ensures { result ≡ is_of_server home.now host.now port }
{
    port == home.port() && host.eq_ignore_ascii_case(home.host())
}

// Whether none of this server's selectors begins so.
fn lacks_slash(selector: &[u8]) -> bool
    ensures { result ≡ lacks_slash selector.now }
{
    !selector.is_empty() && !selector.starts_with(b"/")
}

fn is_own_seed(home: &Home, place: &Place) -> bool
    ensures { result ≡ is_own_seed home.now place.now }
{
    is_of_server(home, place.host(), place.port())
}

// The mistake in the selector of a seed of this server.
fn own_seed_mistake(tree: &Tree, selector: &[u8]) -> Option<SeedMistake>
    ensures { result ≡ own_seed_mistake tree.now selector.now }
{
    if lacks_slash(selector) {
        return Some(SeedMistake::NoSlash);
    }
    if selector == SEARCH {
        return Some(SeedMistake::Search);
    }
    match tree.find(selector) {
        Some(_) => None,
        None => Some(SeedMistake::Missing),
    }
}

// The first mistake in a seed.
fn seed_mistake(tree: &Tree, home: &Home, place: &Place) -> Option<SeedMistake>
    ensures { result ≡ seed_mistake tree.now home.now place.now }
{
    if misleads(home, place.host()) {
        return Some(SeedMistake::Loopback);
    }
    if !is_own_seed(home, place) {
        return None;
    }
    own_seed_mistake(tree, place.selector())
}

fn is_own_rule(home: &Home, rule: &Rule) -> bool
    ensures { result ≡ is_own_rule home.now rule.now }
{
    is_of_server(home, rule.host(), rule.port())
}

// Whether a selector names a folder.
fn is_folder(tree: &Tree, selector: &[u8]) -> bool
    ensures { result ≡ is_folder_named (named tree.now selector.now) }
{
    matches!(tree.find(selector), Some(Node::Folder))
}

// Whether a rule covers the menu at this selector of another rule's server.
fn covers_menu_of(rule: &Rule, other: &Rule, selector: &[u8]) -> bool
    ensures { result ≡ covers_menu (rule.now ∷ []) other.now selector.now }
{
    rule.host() == other.host()
        && rule.port() == other.port()
        && selector.starts_with(rule.prefix())
}

// Whether one of the rules covers the menu at this selector of another rule's server.
fn covers_menu(rules: &[Rule], other: &Rule, selector: &[u8]) -> bool
    ensures { result ≡ covers_menu rules.now other.now selector.now }
{
    rules
        .iter()
        .any(|rule| covers_menu_of(rule, other, selector))
}

// Whether an allow rule covers what is in a folder, and no rule covers the folder's menu.
fn leaves_out_menu(tree: &Tree, allow: &[Rule], rule: &Rule) -> bool
    ensures { result ≡ leaves_out_menu tree.now allow.now rule.now }
{
    match rule.prefix() {
        [folder @ .., b'/'] if !folder.is_empty() => {
            is_folder(tree, folder) && !covers_menu(allow, rule, folder)
        }
        _ => false,
    }
}

// The mistake in an allow rule of this server.
fn own_allow_mistake(tree: &Tree, allow: &[Rule], rule: &Rule) -> Option<RuleMistake>
    ensures { result ≡ own_allow_mistake tree.now allow.now rule.now }
{
    if lacks_slash(rule.prefix()) {
        return Some(RuleMistake::NoSlash);
    }
    leaves_out_menu(tree, allow, rule).then_some(RuleMistake::MenuLeftOut)
}

// The first mistake in an allow rule.
fn allow_mistake(tree: &Tree, home: &Home, allow: &[Rule], rule: &Rule) -> Option<RuleMistake>
    ensures { result ≡ allow_mistake tree.now home.now allow.now rule.now }
{
    if misleads(home, rule.host()) {
        return Some(RuleMistake::Loopback);
    }
    if !is_own_rule(home, rule) {
        return None;
    }
    own_allow_mistake(tree, allow, rule)
}

// Whether the prefix begins all selectors, or all but the root's empty one.
fn begins_all(prefix: &[u8]) -> bool
    ensures { result ≡ begins_all prefix.now }
{
    matches!(prefix, [] | [b'/'])
}

// The mistake in a deny rule of this server.
fn own_deny_mistake(rule: &Rule) -> Option<RuleMistake>
    ensures { result ≡ own_deny_mistake rule.now }
{
    if begins_all(rule.prefix()) {
        return Some(RuleMistake::DeniesAll);
    }
    lacks_slash(rule.prefix()).then_some(RuleMistake::NoSlash)
}

// The first mistake in a deny rule.
fn deny_mistake(home: &Home, rule: &Rule) -> Option<RuleMistake>
    ensures { result ≡ deny_mistake home.now rule.now }
{
    if misleads(home, rule.host()) {
        return Some(RuleMistake::Loopback);
    }
    if !is_own_rule(home, rule) {
        return None;
    }
    own_deny_mistake(rule)
}

fn any_own_seed(home: &Home, seeds: &[Place]) -> bool
    ensures { result ≡ list_any (is_own_seed home.now) seeds.now }
{
    seeds.iter().any(|seed| is_own_seed(home, seed))
}

// Whether there are seeds, and none is of this server.
fn lacks_own_seed(home: &Home, seeds: &[Place]) -> bool
    ensures { result ≡ lacks_own_seed home.now seeds.now }
{
    !seeds.is_empty() && !any_own_seed(home, seeds)
}

// Appends a mistake that isn't one of a seed or a rule, if it was made.
fn push_if(made: bool, mistake: CrawlWarning, out: &mut Vec<CrawlWarning>) -> Result<(), NoMemory>
    ensures { Puts (found_if made mistake) out.old out.new result }
{
    if made {
        out.push(mistake)?;
    }
    Ok(())
}

// Appends the mistakes in seeds.
fn push_seeds(
    tree: &Tree,
    home: &Home,
    seeds: &[Place],
    out: &mut Vec<CrawlWarning>,
) -> Result<(), NoMemory>
    ensures { Puts (seed_mistakes tree.now home.now seeds.now) out.old out.new result }
{
    for (index, seed) in seeds.iter().enumerate() {
        if let Some(mistake) = seed_mistake(tree, home, seed) {
            out.push(CrawlWarning::Seed(index, mistake))?;
        }
    }
    Ok(())
}

// Appends the mistakes in allow rules.
fn push_allow(
    tree: &Tree,
    home: &Home,
    allow: &[Rule],
    out: &mut Vec<CrawlWarning>,
) -> Result<(), NoMemory>
    ensures { Puts (allow_mistakes tree.now home.now allow.now) out.old out.new result }
{
    for (index, rule) in allow.iter().enumerate() {
        if let Some(mistake) = allow_mistake(tree, home, allow, rule) {
            out.push(CrawlWarning::Allow(index, mistake))?;
        }
    }
    Ok(())
}

// Appends the mistakes in deny rules.
fn push_deny(home: &Home, deny: &[Rule], out: &mut Vec<CrawlWarning>) -> Result<(), NoMemory>
    ensures { Puts (deny_mistakes home.now deny.now) out.old out.new result }
{
    for (index, rule) in deny.iter().enumerate() {
        if let Some(mistake) = deny_mistake(home, rule) {
            out.push(CrawlWarning::Deny(index, mistake))?;
        }
    }
    Ok(())
}

// Appends the mistakes in the host, the seeds and the rules, in this order.
fn push_all(tree: &Tree, settings: &Settings, out: &mut Vec<CrawlWarning>) -> Result<(), NoMemory>
    ensures { Puts (crawl_mistakes tree.now (settings_data settings.now)) out.old out.new result }
{
    let home = &settings.home;
    let (allow, deny) = settings.scope.rules();
    let seeds = settings.seeds.as_slice();
    push_if(
        is_unreachable(home.host()),
        CrawlWarning::UnreachableHost,
        out,
    )?;
    push_if(lacks_own_seed(home, seeds), CrawlWarning::NoOwnSeed, out)?;
    push_seeds(tree, home, seeds, out)?;
    push_allow(tree, home, allow, out)?;
    push_deny(home, deny, out)
}

/// Returns the mistakes in the settings of a crawl: first in the host, then in seeds, allow rules
/// and deny rules, each in the order of the settings; `tree` has the site's files.
pub fn crawl_warnings(
    alloc: Global,
    tree: &Tree,
    settings: &Settings,
) -> Result<Vec<CrawlWarning>, NoMemory>
    ensures { IfOk result (λ w. w.items ≡ crawl_mistakes tree.now (settings_data settings.now)) }
{
    let mut found = Vec::new(alloc);
    push_all(tree, settings, &mut found)?;
    Ok(found)
}
