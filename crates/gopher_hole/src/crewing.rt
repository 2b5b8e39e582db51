//! A server with its crew, from its settings to its end.

ghost use Rattle.std.specs.Prelude.{◌≡◌, [], None, Some, Ok, IfErr, IfOk, OnOk, vec_len};
ghost use Rattle.gopher_hole.specs.Ending.{HasServed, ServerEnds, StartsAll, fault_at_end, listening_line};
ghost use Rattle.gopher_hole.specs.ServerFault.{IsServerFault, IsServingFault};
ghost use Rattle.gopher_hole.specs.Shares.{KeepsAllParts, shares_after, shares_with};
ghost use Rattle.gopher_text.specs.Watched.{HasSent};
ghost use Rattle.gopher_crew.specs.Desk.{HasAll, IsBlankOf};
ghost use Rattle.gopher_crew.specs.Kept.{IsStatusAfter};

use crate::announcing::{tell_listening, tell_status};
use crate::arguments::Serving;
use crate::fault::ProgramFault;
use crate::fetching::{CrawlFetch, CrawlState};
use crate::listening::listen;
use crate::opening::{Opened, open, read_aliases, read_settings};
use crate::progress::{Reporting, crawl_and_tell};
use crate::site::Content;
use crate::starting::{AnyEnd, Started, ThreadsEnd, join_all, start_threads};
use gopher_catalogue::Status;
use gopher_crew::{Blank, Crew, Desk, Pass, Share, WorkEnd};
use gopher_item::{Home, NoMemory};
use gopher_server::{
    Messages, OpenLog, ServerSetup, ThreadEnd, end_log, max_connections, set_up, start_log,
    start_messages,
};
use gopher_text::Watched;
use mio::net::TcpListener;
use std::alloc::Global;
use std::env::Env;
use std::fs::{File, Files};
use std::io::{Eprint, Write};
use std::net::{Net, TcpListener as NetListener, TcpStream};
use std::sync::{Arc, Wait};
use std::thread::{Promise, Threads};
use std::time::Clock;

/// What a server thread and its log ask of a runtime.
pub trait Threaded: OpenLog + Threads + Wait + Clock + Eprint + Clone {}

impl<R: OpenLog + Threads + Wait + Clock + Eprint + Clone> Threaded for R {}

/// What a server asks of its runtime, beside files and sockets.
pub trait System: Threaded + Env + AllocGlobal + Send + Sync + Drop + 'static {}

impl<R: Threaded + Env + AllocGlobal + Send + Sync + Drop + 'static> System for R {}

// Pairs each share with a fetcher of its own.
fn pairs_of<'a, C: Crew>(
    alloc: Global,
    shares: Vec<Share<C>>,
    state: &'a CrawlState,
) -> Result<Vec<(CrawlFetch<'a>, Share<C>)>, NoMemory>
    ensures len { IfOk result (λ pairs. vec_len pairs ≡ vec_len shares) }
    ensures shares { IfOk result (λ pairs. shares_with pairs.items ≡ shares.items) }
{
    let mut pairs = Vec::with_capacity(alloc, shares.len())?;
    for share in shares {
        pairs.push((CrawlFetch::new(state), share))?;
    }
    Ok(pairs)
}

// The fault of a server by how its threads and its crawl ended, if there is one.
fn fault_at_end(end: ThreadsEnd, was_crawled: bool) -> Option<ProgramFault>
    ensures { result ≡ fault_at_end end was_crawled }
{
    if end.failed {
        Some(ProgramFault::ListenFailed)
    } else if end.is_short {
        Some(ProgramFault::NoThread)
    } else if !was_crawled {
        Some(ProgramFault::NoMemory)
    } else {
        None
    }
}

// Waits until the threads have ended. Returns the result of the crawl, or the fault of a server
// whose threads and crawl ended like this.
fn wait_for_all<P: Promise<ThreadEnd>, T: Drop, E: Drop, R: Threads>(
    rt: &R,
    started: Started<P>,
    crawled: Result<T, E>,
) -> Result<T, ProgramFault>
    ensures fault { IfErr result (λ fault. ServerEnds P.Promise started crawled (Some fault)) }
    ensures none { OnOk result (ServerEnds P.Promise started crawled None) }
    ensures kept { IfOk result (λ ends. crawled ≡ Ok ends) }
    ensures serving { IfErr result IsServingFault }
{
    let end = join_all(rt, started);
    if let Some(fault) = fault_at_end(end, crawled.is_ok()) {
        return Err(fault);
    }
    match crawled {
        Ok(ends) => Ok(ends),
        Err(_refused) => Err(ProgramFault::NoMemory),
    }
}

// Starts a server thread for each pass.
fn start<C: Crew + Send + Sync + 'static, R: System + Net>(
    rt: &R,
    alloc: Global,
    server: ServerSetup,
    content: Content,
    passes: Vec<Pass<C>>,
    state: &CrawlState,
) -> Result<Started<AnyEnd>, ProgramFault>
    ensures started { IfOk result (λ started. StartsAll passes started) }
    ensures fault { IfErr result IsServingFault }
{
    let tells = server.tells;
    let setups = set_up(rt, alloc, server, passes.len())?;
    let Ok(content) = Arc::new(alloc, content) else {
        return Err(ProgramFault::NoMemory);
    };
    let started = start_threads(rt, alloc, &content, setups, passes);
    if started.is_short && tells {
        let stream = state.stream(rt);
        let _ = stream.eprintln("hole: a server thread can't be started");
    }
    if started.threads.is_empty() {
        return Err(ProgramFault::NoThread);
    }
    Ok(started)
}

// Crawls beside the server threads that were started, and waits until all of them ended.
fn crawl_to_end<
    'a,
    C: Crew + Send + Sync + 'static,
    R: System + Files + Net<Listener = NetListener, Stream = TcpStream>,
>(
    rt: &R,
    alloc: Global,
    started: Result<Started<AnyEnd>, ProgramFault>,
    desk: &Desk<C, &R>,
    pairs: Vec<(CrawlFetch<'a>, Share<C>)>,
    reporting: Reporting<'_>,
) -> Result<Vec<WorkEnd<CrawlFetch<'a>, C>>, ProgramFault>
    requires { IfErr started IsServingFault }
    ensures parts { IfOk result (λ ends. KeepsAllParts pairs.entry.items ends.items) }
    ensures fault { IfErr result IsServingFault }
{
    let started = started?;
    let crawled = crawl_and_tell(rt, alloc, desk, pairs, reporting);
    wait_for_all(rt, started, crawled)
}

// The shares of workers that have ended.
fn shares_of<C: Crew>(
    alloc: Global,
    ends: Vec<WorkEnd<CrawlFetch<'_>, C>>,
) -> Result<Vec<Share<C>>, NoMemory>
    ensures { IfOk result (λ shares. shares.items ≡ shares_after ends.entry.items) }
{
    let mut shares = Vec::new(alloc);
    for end in ends {
        shares.push(end.share)?;
    }
    Ok(shares)
}

// Closes the desk with the shares of all its workers. Returns the number of places in each state.
fn close<C: Crew, R: Wait + Drop>(
    alloc: Global,
    desk: Desk<C, R>,
    ends: Vec<WorkEnd<CrawlFetch<'_>, C>>,
) -> Result<Status, ProgramFault>
    requires { HasAll C.parts (shares_after ends.items) }
    ensures status { IfOk result (IsStatusAfter desk) }
    ensures fault { IfErr result IsServingFault }
{
    match desk.close(shares_of(alloc, ends)?) {
        Ok(catalogue) => Ok(catalogue.status()),
        Err(_refused) => Err(ProgramFault::StrangeShare),
    }
}

// Listens at the addresses of a server with these numbers of threads and of workers that crawl, and
// says so. Returns the listeners, and how many connections the threads may hold by the limit of
// open files.
fn open_listeners<R: Net + Env + Eprint + AllocGlobal, W: Write>(
    rt: &R,
    alloc: Global,
    home: &Home,
    serving: &Serving<'_>,
    threads: usize,
    workers: usize,
    output: &mut Watched<W>,
) -> Result<(Vec<TcpListener>, u64), ProgramFault>
    ensures line { OnOk result (HasSent W.contents output.old output.new
        (listening_line home.now)) }
    ensures fault { IfErr result IsServingFault }
{
    let listeners = listen(rt, alloc, home, &serving.addresses, serving.progress)?;
    let Some(places) = max_connections(listeners.len(), threads, workers) else {
        if serving.progress {
            let _ = rt.eprintln("hole: the limit of open files is too low for these settings");
        }
        return Err(ProgramFault::ListenFailed);
    };
    tell_listening(alloc, home, output)?;
    Ok((listeners, places))
}

// How many connections of one address the server holds at most. Without the option, its own crawl
// has room for all workers.
fn clients_of(serving: &Serving<'_>, places: u64, workers: usize) -> u64 {
    let workers = workers as u64;
    serving
        .clients_per_address
        .unwrap_or((places / 4).max(workers.saturating_add(1)))
}

// Listens, serves, and crawls at the desk. Returns the workers' ends once all have ended.
fn listen_and_serve<
    'a,
    C: Crew + Send + Sync + 'static,
    R: System + Files + Net<Listener = NetListener, Stream = TcpStream>,
    W: Write,
>(
    rt: &R,
    serving: &Serving<'_>,
    desk: &Desk<C, &R>,
    content: Content,
    passes: Vec<Pass<C>>,
    pairs: Vec<(CrawlFetch<'a>, Share<C>)>,
    reporting: Reporting<'_>,
    output: &mut Watched<W>,
) -> Result<Vec<WorkEnd<CrawlFetch<'a>, C>>, ProgramFault>
    ensures line { OnOk result (HasSent W.contents output.old output.new
        (listening_line content.replies.home)) }
    ensures parts { IfOk result (λ ends. KeepsAllParts pairs.entry.items ends.items) }
    ensures fault { IfErr result IsServingFault }
{
    if let Some(bytes) = serving.crawl_memory {
        desk.limit_memory(bytes);
    }
    let alloc = rt.alloc();
    let workers = if desk.status(rt).waiting > 0 {
        pairs.len()
    } else {
        0
    };
    let threads = passes.len();
    let home = content.replies.home();
    let (listeners, places) = open_listeners(rt, alloc, home, serving, threads, workers, output)?;
    let log = start_log(rt, alloc, serving.log);
    let server = ServerSetup {
        listeners,
        requests: serving.requests,
        places,
        clients_per_address: Some(clients_of(serving, places, workers)),
        log: log.as_ref().and_then(|log| log.queue()),
        tells: serving.progress,
        messages: reporting.state.messages(),
    };
    let started = start(rt, alloc, server, content, passes, reporting.state);
    let ended = crawl_to_end(rt, alloc, started, desk, pairs, reporting);
    end_log(rt, alloc, log);
    reporting.state.end_messages(rt);
    ended
}

// Serves and crawls at the desk until all have ended, and closes it. Returns the number of places
// in each state.
fn serve_and_close<
    C: Crew + Send + Sync + 'static,
    R: System + Files + Net<Listener = NetListener, Stream = TcpStream>,
    W: Write,
>(
    rt: &R,
    serving: &Serving<'_>,
    content: Content,
    desk: Desk<C, &R>,
    passes: Vec<Pass<C>>,
    shares: Vec<Share<C>>,
    reporting: Reporting<'_>,
    out: &mut Watched<W>,
) -> Result<Status, ProgramFault>
    requires { HasAll C.parts shares.items }
    ensures line { OnOk result (HasSent W.contents out.old out.new
        (listening_line content.replies.home)) }
    ensures status { IfOk result (IsStatusAfter desk.entry) }
    ensures fault { IfErr result IsServingFault }
{
    let alloc = rt.alloc();
    let pairs = pairs_of(alloc, shares, reporting.state)?;
    let ends = listen_and_serve(rt, serving, &desk, content, passes, pairs, reporting, out)?;
    close(alloc, desk, ends)
}

// Starts the thread that prints messages, if there may be some beside a crawl.
fn messages_for<R: System>(rt: &R, serving: &Serving<'_>) -> Option<Arc<Messages>> {
    if serving.progress || serving.crawl_memory.is_some() || serving.list_found.is_some() {
        start_messages(rt, rt.alloc())
    } else {
        None
    }
}

/// Serves and crawls as the settings say. Writes the line `listening HOST PORT` once it listens,
/// and the number of places in each state after the crawl and the last connection.
///
/// `blank` is a new one, whose names are those of the crew `C`.
///
/// # Errors
///
/// Before it listens, those of `read_settings`, `read_aliases`, `open` and `listen`, in this order.
/// Later:
///
/// - `ListenFailed` (81): a thread could no longer accept connections
/// - `NoThread` (82): a server thread couldn't be started
/// - `WriteFailed` (13): a line couldn't be written or flushed
/// - `NoMemory` (90)
#[tactic(auto, using(crate::proofs::ServerFaults::settings_is_server, crate::proofs::ServerFaults::aliases_is_server, crate::proofs::ServerFaults::opening_is_server, crate::proofs::ServerFaults::serving_is_server, crate::proofs::ServerFaults::serving_ends_server))]
pub fn serve<
    C: Crew + Send + Sync + 'static,
    R: System + Files<File = File> + Net<Listener = NetListener, Stream = TcpStream>,
    W: Write,
>(rt: &R, serving: &Serving<'_>, blank: Blank, output: &mut Watched<W>) -> Result<(), ProgramFault>
    requires blank { IsBlankOf C.name C.parts C.history blank }
    requires begun { blank.begun ≡ [] }
    ensures served { OnOk result (HasServed W.contents output.old output.new) }
    ensures fault { IfErr result IsServerFault }
{
    let alloc = rt.alloc();
    let settings = read_settings(rt, alloc, serving.settings)?;
    let aliases = read_aliases(rt, alloc, serving.aliases)?;
    let messages = messages_for(rt, serving);
    let state = CrawlState::new(alloc, &settings.home, settings.tries, serving, messages)?;
    let reporting = Reporting {
        state: &state,
        list_found: serving.list_found,
    };
    let opened = open::<C, R>(rt, alloc, settings, serving.leave_out, blank)?;
    let Opened {
        replies,
        desk,
        passes,
        shares,
    } = opened;
    let content = Content { replies, aliases };
    let status = serve_and_close(
        rt, serving, content, desk, passes, shares, reporting, output,
    )?;
    tell_status(alloc, status, output)
}
