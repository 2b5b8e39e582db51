//! `crawl`: several workers, each in a thread.

ghost use Rattle.std.specs.Prelude.{◌≡◌, ◌≤◌, [], length, vec_len, vec_capacity, IfOk, IfErr};
ghost use Rattle.std.specs.List.{AllZip};
ghost use Rattle.gopher_crew.specs.Rounds.{AdmitsFetched};
ghost use Rattle.gopher_crew.specs.Work.{HasPair, WorksOn, AllWork, HaveAsManyParts};

use crate::crew::{Admits, Crew};
use crate::desk::Desk;
use crate::desk::share::Share;
use crate::working::fetch::Fetch;
use crate::working::{WorkEnd, run};
use std::alloc::Global;
use std::fmt;
use std::sync::Wait;
use std::thread::{Threads, for_each_mut};
use thiserror::Error;

/// A crawl that wasn't started because memory ran out (90), with the arguments it was given.
#[derive(Drop, Error)]
#[error("out of memory")]
pub struct CrawlRefused<F: Drop, C: Crew> {
    /// The fetchers and shares.
    pub pairs: Vec<(F, Share<C>)>,
}

impl<F: Drop, C: Crew> CrawlRefused<F, C> {
    /// Returns the number of this fault, 90.
    pub fn code(&self) -> u8
        ensures { result ≡ 90 }
    {
        90
    }
}

impl<F: Drop, C: Crew> fmt::Debug for CrawlRefused<F, C> {
    fn fmt<W: fmt::Write>(&self, f: &mut fmt::Formatter<W>) -> fmt::Result {
        let pairs = self.pairs.len();
        f.debug_struct("CrawlRefused")
            .field("pairs", &pairs)
            .finish()
    }
}

// Appends a worker for each pair, in their order. Each did nothing yet.
fn workers_of<F: Drop, C: Crew>(pairs: Vec<(F, Share<C>)>, workers: &mut Vec<WorkEnd<F, C>>)
    requires empty { workers.old.items ≡ [] }
    requires none { vec_len workers.old ≡ 0 }
    requires room { vec_len pairs ≤ vec_capacity workers.old }
    ensures len { vec_len workers.new ≡ vec_len pairs }
    ensures idle { AllZip HasPair pairs.items workers.new.items }
{
    let mut pairs = pairs;
    pairs.reverse();
    while let Some((fetcher, share)) = pairs.pop() {
        workers.push_reserved(WorkEnd::idle(fetcher, share));
    }
}

// Runs each worker, in a thread of its own if that can be started.
fn run_all<
    C: Crew + Send + Sync,
    R: Wait + Drop + Send,
    A: Admits + Send + Sync,
    W: Threads + Wait + Sync,
    F: Fetch<W> + Drop + Send,
>(rt: &W, alloc: Global, desk: &Desk<C, R, A>, workers: &mut [WorkEnd<F, C>])
    requires { AdmitsFetched A.admits F.fetches desk.now }
    ensures len { length workers.new ≡ length workers.old }
    ensures each { AllZip (WorksOn F.fetches F.called desk.now) workers.old workers.new }
{
    let threads = workers.len().max(1);
    for_each_mut(
        rt,
        workers,
        threads,
        &|_index: usize, worker: &mut WorkEnd<F, C>|
            requires { AdmitsFetched A.admits F.fetches desk.now }
            ensures { WorksOn F.fetches F.called desk.entry.now worker.old worker.new }
        { run(rt, alloc, desk, worker) },
    );
}

/// Works at a desk with one thread for each pair of a fetcher and a share, until each worker has
/// stopped. Returns how the workers ended, in the order of the pairs. If a thread can't be started,
/// the caller's thread works for its pair. The desk's rule must admit each outcome that the
/// fetchers may have (`Admits`).
///
/// # Errors
/// `CrawlRefused` (90): out of memory, before any thread starts. It has the pairs.
pub fn crawl<
    C: Crew + Send + Sync,
    R: Wait + Drop + Send,
    A: Admits + Send + Sync,
    W: Threads + Wait + Sync,
    F: Fetch<W> + Drop + Send,
>(
    rt: &W,
    alloc: Global,
    desk: &Desk<C, R, A>,
    pairs: Vec<(F, Share<C>)>,
) -> Result<Vec<WorkEnd<F, C>>, CrawlRefused<F, C>>
    requires { AdmitsFetched A.admits F.fetches desk.now }
    ensures ends { IfOk result (λ ends. vec_len ends ≡ vec_len pairs) }
    ensures each { IfOk result (λ it. AllWork F.fetches F.called desk.now pairs.items it.items) }
    ensures parts { IfOk result (λ ends. HaveAsManyParts pairs.items ends.items) }
    ensures back { IfErr result (λ refused. refused.pairs ≡ pairs) }
{
    let Ok(mut workers) = Vec::with_capacity(alloc, pairs.len()) else {
        return Err(CrawlRefused { pairs });
    };
    workers_of(pairs, &mut workers);
    run_all(rt, alloc, desk, workers.as_mut_slice());
    Ok(workers)
}
