//! Laws of the site's own crawl. Each function does nothing: its contract is the law.

ghost use Rattle.gopher_check.specs.Coverage.{ReachedTextsAreFetchable};
ghost use Rattle.gopher_check.specs.Crawl.{CrawlsFindReachedPages};

/// A finished crawl that agrees with a table of outcomes and dropped no mention found exactly the
/// pages of the places that can be reached from its seeds.
pub fn crawls_find_reached_pages()
    ensures { CrawlsFindReachedPages }
{}

/// If the crawl of a site dropped no mention, the texts that count as reached are exactly those
/// that can be reached from the seeds and whose replies aren't too long.
pub fn reached_texts_are_fetchable()
    ensures { ReachedTextsAreFetchable }
{}
