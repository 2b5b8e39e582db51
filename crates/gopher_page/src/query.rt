//! `Query`, `Term`, `Operator`: reading a query, which pages it matches, and their scores.

ghost use Rattle.std.specs.Prelude.{◌≡◌, ◌+◌, ◌<◌, ◌≤◌, ◌++◌, IsTrue, not, Some, length, slice_get, IfOk, OnOk};
ghost use Rattle.std.specs.Option.{option_map};
ghost use Rattle.gopher_page.specs.Query.{operator_of, later_terms, terms_from, query_of, count_of_term, joined, matches, is_not, wanted, score, ReadsQuery, IsQuery, HasWanted};

use crate::fault::QueryFault;
use crate::page::Page;
use crate::word::next_token;
use gopher_item::{ByteString, MAX_LINE, NoMemory};
use std::alloc::{AllocError, Global};
use std::marker::Model;

/// How a term is joined to the terms before it.
#[derive(Clone, Copy, Debug, PartialEq, Eq)]
pub enum Operator {
    /// Both match.
    And,
    /// At least one of them matches.
    Or,
    /// The terms before match and this term doesn't.
    Not,
}

impl Operator {
    /// Joins a term to the terms before it: `truth` says whether those match, `holds` whether the
    /// term does.
    pub fn join(self, truth: bool, holds: bool) -> bool
        ensures { result ≡ joined self truth holds }
    {
        match self {
            Operator::And => truth && holds,
            Operator::Or => truth || holds,
            Operator::Not => truth && !holds,
        }
    }

    /// Returns whether this is `Not`. A term after `Not` scores nothing.
    pub fn is_not(self) -> bool
        ensures { result ≡ is_not self }
    {
        matches!(self, Operator::Not)
    }
}

/// One term of a query.
#[derive(Debug, Drop)]
pub struct Term {
    operator: Operator,
    word: ByteString,
    is_prefix: bool,
}

impl Model for Term {
    ghost use Rattle.gopher_page.specs.Query.{TermData};

    ghost Value = { TermData };

    ghost view = { λ t. record { operator = t.operator; word = t.word; is_prefix = t.is_prefix } };
}

impl Term {
    /// Returns how the term is joined to the terms before it. The first term is joined by `And`.
    pub fn operator(&self) -> Operator
        ensures { result ≡ self.now.operator }
    {
        self.operator
    }

    /// Returns the word in lower case.
    pub fn word(&self) -> &[u8]
        ensures { result.now ≡ self.now.word }
    {
        self.word.as_slice()
    }

    /// Returns whether the term matches every word that begins with its word.
    pub fn is_prefix(&self) -> bool
        ensures { result ≡ self.now.is_prefix }
    {
        self.is_prefix
    }

    /// Returns how often the words that the term matches occur in `page`.
    pub fn count_in(&self, page: &Page) -> u32
        ensures { result ≡ count_of_term page.now.counts self.now }
    {
        page.counts().count_meant(self.is_prefix(), self.word())
    }
}

impl Clone for Term {
    ghost is_clone = { λ term copy. copy ≡ term };

    fn clone(&self) -> Result<Term, AllocError> {
        Ok(Term {
            operator: self.operator,
            word: self.word.clone()?,
            is_prefix: self.is_prefix,
        })
    }
}

fn operator_of(word: &[u8], is_prefix: bool) -> Option<Operator>
    ensures { result ≡ operator_of (record { word = word.now; is_prefix = is_prefix }) }
{
    if is_prefix {
        None
    } else if word == b"and".as_slice() {
        Some(Operator::And)
    } else if word == b"or".as_slice() {
        Some(Operator::Or)
    } else if word == b"not".as_slice() {
        Some(Operator::Not)
    } else {
        None
    }
}

// Appends the terms of a text that follows a term.
fn add_terms(alloc: Global, text: &[u8], terms: &mut Vec<Term>) -> Result<(), NoMemory>
    ensures terms { OnOk result (terms.new.items ≡ terms.old.items ++ later_terms text.now) }
    ensures few { OnOk result (length terms.new.items ≤ length terms.old.items + length text.now) }
{
    let mut operator = Operator::And;
    let mut rest = text;
    while let Some((token, is_prefix, after)) = next_token(rest) {
        let word = ByteString::lower_cased(alloc, token)?;
        match operator_of(word.as_slice(), is_prefix) {
            Some(next) => operator = next,
            None => {
                terms.push(Term {
                    operator,
                    word,
                    is_prefix,
                })?;
                operator = Operator::And;
            }
        }
        rest = after;
    }
    Ok(())
}

fn terms_from(
    alloc: Global,
    token: &[u8],
    is_prefix: bool,
    after: &[u8],
) -> Result<Vec<Term>, NoMemory>
    ensures terms { IfOk result (λ all. all.items ≡ terms_from token.now is_prefix after.now) }
    ensures few { IfOk result (λ terms. length terms.items ≤ length after.now + 1) }
{
    let word = ByteString::lower_cased(alloc, token)?;
    let mut terms = Vec::new(alloc);
    terms.push(Term {
        operator: Operator::And,
        word,
        is_prefix,
    })?;
    add_terms(alloc, after, &mut terms)?;
    Ok(terms)
}

fn is_wanted(term: &Term) -> bool
    ensures { result ≡ not (is_not term.now.operator) }
{
    !term.operator.is_not()
}

/// The query of a search: words and prefixes, joined by `and`, `or` and `not` from left to right.
#[derive(Debug, Drop)]
pub struct Query {
    terms: Vec<Term>,
}

impl Model for Query {
    ghost use Rattle.std.specs.Prelude.{List};
    ghost use Rattle.gopher_page.specs.Query.{TermData, IsQuery};

    ghost Value = { List TermData };

    ghost view = { λ q. q.terms.items };

    ghost invariant = { λ q. IsQuery q.terms.items };
}

impl Query {
    /// Reads the query of a text of at most 1,024 bytes (`MAX_LINE`).
    ///
    /// The tokens are the words of the text. A token directly followed by `*` is a prefix: it
    /// matches every word that begins with it. The first token is always a term. A later token
    /// `and`, `or` or `not` (in any case) without `*` is an operator. Of several operators in a row
    /// the last one counts, terms without an operator between them are joined by `and`, and
    /// operators after the last term are ignored.
    ///
    /// # Errors
    ///
    /// - `NoWords` (40): the text contains no word
    /// - `NoMemory` (90)
    pub fn read(alloc: Global, text: &[u8]) -> Result<Query, QueryFault>
        requires { length text.now ≤ MAX_LINE }
        ensures { ReadsQuery (query_of text.now) result }
    {
        let Some((token, is_prefix, after)) = next_token(text) else {
            return Err(QueryFault::NoWords);
        };
        Ok(Query {
            terms: terms_from(alloc, token, is_prefix, after)?,
        })
    }

    /// Returns the terms in order, at most 1,024. The first is joined by `And`.
    pub fn terms(&self) -> &[Term]
        ensures terms { result.now ≡ self.now }
        ensures query { IsQuery self.now }
    {
        &self.terms
    }

    /// Returns whether a page matches. A term matches if the page contains a word that it matches;
    /// the terms are joined from left to right.
    pub fn matches(&self, page: &Page) -> bool
        ensures value { result ≡ matches self.now page.now.counts }
        ensures wanted { IsTrue result → HasWanted self.now page.now.counts }
    {
        let mut truth = true;
        for term in &self.terms {
            truth = term.operator().join(truth, term.count_in(page) > 0);
        }
        truth
    }

    /// Returns how often the words of the terms without `not` occur in the page. A word of two
    /// terms counts twice.
    pub fn score(&self, page: &Page) -> u64
        ensures { result ≡ score self.now page.now.counts }
    {
        let mut total = 0;
        for term in &self.terms {
            if !is_wanted(term) {
                continue;
            }
            total += u64::from(term.count_in(page));
        }
        total
    }

    /// Returns the number of terms without `not`.
    pub fn wants(&self) -> usize
        ensures { result ≡ length (wanted self.now) }
    {
        self.terms.iter().filter(|term| is_wanted(term)).count()
    }

    fn wanted_term(&self, index: usize) -> &Term
        requires { index < length (wanted self.now) }
        ensures { slice_get (wanted self.now) index ≡ Some result.now }
    {
        let mut left = index;
        for term in &self.terms {
            if !is_wanted(term) {
                continue;
            }
            if left == 0 {
                return term;
            }
            left -= 1;
        }
        unreachable!()
    }

    /// Returns the word of the term at `index` among the terms without `not`; `index` is below
    /// `wants`.
    pub fn want(&self, index: usize) -> &[u8]
        requires { index < length (wanted self.now) }
        ensures { option_map (λ t. t.word) (slice_get (wanted self.now) index) ≡ Some result.now }
    {
        self.wanted_term(index).word()
    }

    /// Returns whether the term at `index` among the terms without `not` is a prefix; `index` is
    /// below `wants`.
    pub fn want_is_prefix(&self, index: usize) -> bool
        requires { index < length (wanted self.now) }
        ensures { option_map (λ t. t.is_prefix) (slice_get (wanted self.now) index) ≡ Some result }
    {
        self.wanted_term(index).is_prefix()
    }
}
