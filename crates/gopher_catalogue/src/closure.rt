//! What a finished crawl contains: exactly the places that can be reached from its seeds.
//!
//! Each function does nothing: its contract is a law over all records. The laws speak of a table
//! that gives one outcome for each place. A record agrees with a table if the last outcome of each
//! known place is the table's. A finished crawl that agrees with a table and dropped no mention
//! depends only on the table, the scope and the seeds. No law says that a crawl finishes.

ghost use Rattle.gopher_catalogue.specs.Closure.{AnswersAreOfPagesFound, EachPageIsFoundOnce, FinalAnswerIsOne, FinalOccurrencesAreOne, FinishedCrawlGivesFinalAnswers, FinishedCrawlGivesFinalOccurrences, FinishedCrawlHoldsReach, FinishedCrawlsAgree, FinishedCrawlsAnswerAlike, OneTryAgreesThroughout};

/// A finished crawl knows exactly the places that can be reached. All of them are allowed and done,
/// and the pages found are those of the table's bytes.
pub fn finished_crawl_holds_reach()
    ensures { FinishedCrawlHoldsReach }
{}

/// Two finished crawls with the same table, scope and seeds contain the same places and pages. The
/// order of their seeds and events, their limits and their tries don't matter.
pub fn finished_crawls_agree()
    ensures { FinishedCrawlsAgree }
{}

/// A legal record contains at most one page of each place.
pub fn each_page_is_found_once()
    ensures { EachPageIsFoundOnce }
{}

/// With one try, a table agrees with the last outcomes exactly if it gives every outcome of the
/// record.
pub fn one_try_agrees_throughout()
    ensures { OneTryAgreesThroughout }
{}

/// At each moment of a crawl, a search returns each matching page once, and a list of occurrences
/// contains each page with the word once.
pub fn answers_are_of_pages_found()
    ensures { AnswersAreOfPagesFound }
{}

/// A table, a scope and seeds determine at most one final answer to a query.
pub fn final_answer_is_one()
    ensures { FinalAnswerIsOne }
{}

/// A table, a scope and seeds determine at most one final list of occurrences of a word.
pub fn final_occurrences_are_one()
    ensures { FinalOccurrencesAreOne }
{}

/// A finished crawl returns the final answer to each query: the hits among the pages of all places
/// that can be reached.
pub fn finished_crawl_gives_final_answers()
    ensures { FinishedCrawlGivesFinalAnswers }
{}

/// A finished crawl returns the final occurrences of each word.
pub fn finished_crawl_gives_final_occurrences()
    ensures { FinishedCrawlGivesFinalOccurrences }
{}

/// Two finished crawls with the same table, scope and seeds give equal answers to every query and
/// equal occurrences of every word. The order of their seeds and events, their limits and their
/// tries don't matter.
pub fn finished_crawls_answer_alike()
    ensures { FinishedCrawlsAnswerAlike }
{}
