//! `CrawlEnd`: what is printed when a crawl is over.

ghost use Rattle.std.specs.Prelude.{◌≡◌};
ghost use Rattle.gopher_hole.specs.CrawlEnd.{is_over};

use gopher_catalogue::Status;
use std::fmt;

/// How a crawl ended: its workers stopped, since no place was left or memory ran out.
#[derive(Clone, Copy, Debug)]
pub struct CrawlEnd {
    /// The number of places in each state.
    pub status: Status,
    /// How many places were found.
    pub found: u64,
    /// How many workers stopped because memory ran out.
    pub stopped: u64,
    /// How many seconds the crawl took.
    pub seconds: u64,
}

// Whether every known place has its last outcome.
fn is_over(status: Status) -> bool
    ensures { result ≡ is_over status }
{
    status.waiting == 0 && status.out == 0
}

impl fmt::Display for CrawlEnd {
    ghost use Rattle.std.specs.Prelude.{Some};
    ghost use Rattle.gopher_hole.specs.CrawlEnd.{crawl_end};

    ghost output = { λ end. Some (crawl_end end) };

    fn fmt<W: fmt::Write>(&self, f: &mut fmt::Formatter<W>) -> fmt::Result {
        let CrawlEnd {
            status,
            found,
            stopped,
            seconds,
        } = *self;
        let (waiting, out, dropped) = (status.waiting, status.out, status.dropped);
        if is_over(status) {
            let failed = u64::from(status.done).saturating_sub(found);
            write!(
                f,
                "finished: {found} found, {failed} failed, {dropped} dropped in {seconds} s"
            )
        } else {
            write!(
                f,
                "ended: {waiting} waiting, {out} out: {stopped} workers stopped, out of memory"
            )
        }
    }
}
