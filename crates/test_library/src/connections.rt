//! A server thread and a fetcher in one process, over connections of this machine. What the program
//! sends over sockets is shown by tests/requests.py, and how it crawls by tests/crawling.py.
ghost use Rattle.std.specs.Prelude.{◌≡◌, []};
ghost use Rattle.gopher_crew.specs.Desk.{IsBlankOf};

use crate::opening::{crawl, opened};
use gopher_catalogue::Why;
use gopher_crew::{Blank, Calls, Crew, Fetch, Pass};
use gopher_hole::{TcpFetch, serve_one};
use gopher_item::{Home, Place};
use gopher_text::Watched;
use gopher_tree::Tree;
use std::alloc::Global;
use std::fs::{self, Files};
use std::marker::Brand;
use std::net::{Net, TcpListener, TcpStream};
use std::process::Abort;
use std::sync::Wait;
use std::thread::{Threads, join};

// The tree of a new folder with a text.
fn loaded<R: Files + Abort + AllocGlobal>(rt: &R) -> Tree {
    fs::create_dir(rt, "site").ok().expect(rt, "no folder");
    fs::write(rt, "site/a.txt", b"hello\n")
        .ok()
        .expect(rt, "no file");
    Tree::load(rt, rt.alloc(), "site")
        .ok()
        .expect(rt, "no tree")
}

// Serves the next connection. Returns whether it was served.
fn serve_next<C: Crew>(
    alloc: Global,
    listener: TcpListener,
    tree: Tree,
    home: Home,
    pass: Pass<C>,
) -> bool {
    let mut pass = pass;
    let Ok((stream, _peer)) = listener.accept() else {
        return false;
    };
    let mut reader = Watched::new(&stream);
    let mut writer = Watched::new(&stream);
    serve_one(alloc, &tree, &home, &mut pass, &mut reader, &mut writer).is_ok()
}

// What a fetch gives, and how often its fetcher was called.
fn fetched<R: Net<Listener = TcpListener, Stream = TcpStream>>(
    rt: &R,
    alloc: Global,
    place: &Place,
) -> (Result<Vec<u8>, Why>, u64) {
    let mut fetcher = TcpFetch::new();
    let reply = fetcher.fetch(rt, alloc, place, 1_048_576);
    (reply, fetcher.calls())
}

// Serves the root's menu from a thread, and fetches it. Once nobody listens, a fetch fails.
fn serves<
    C: Crew + Send + Sync,
    R: Net<Listener = TcpListener, Stream = TcpStream>
        + Files
        + Threads
        + Wait
        + Abort
        + AllocGlobal
        + Sync,
>(rt: &R, blank: Blank)
    requires blank { IsBlankOf C.name C.parts C.history blank }
    requires begun { blank.begun ≡ [] }
{
    let alloc = rt.alloc();
    let begun = crawl(alloc, b"localhost", 10, 1).expect(rt, "no crawl");
    let (_desk, mut passes, _shares) = opened::<C, R>(rt, false, blank, begun, 1);
    let pass = passes.pop().expect(rt, "no pass");
    let listener = TcpListener::bind(rt, "localhost:0")
        .ok()
        .expect(rt, "no listener");
    let port = listener.local_addr().ok().expect(rt, "no address").port();
    let home = Home::new(alloc, b"localhost", port)
        .ok()
        .expect(rt, "no home");
    let root = Place::new(alloc, b'1', b"", b"localhost", port)
        .ok()
        .expect(rt, "no place");
    let tree = loaded(rt);
    let (is_served, (reply, calls)) = join(
        rt,
        move || serve_next(alloc, listener, tree, home, pass),
        || fetched(rt, alloc, &root),
    );
    let menu = format!(in alloc;
        "7Search\t/search\tlocalhost\t{port}\r\n0a.txt\t/a.txt\tlocalhost\t{port}\r\n.\r\n"
    );
    let menu = menu.ok().expect(rt, "no menu");
    assert!(rt; is_served && calls == 1);
    let is_menu = match &reply {
        Ok(bytes) => bytes.as_slice() == menu.as_bytes(),
        Err(_why) => false,
    };
    assert!(rt; is_menu);
    let (reply, calls) = fetched(rt, alloc, &root);
    let is_refused = match &reply {
        Ok(_bytes) => false,
        Err(why) => *why == Why::Connect,
    };
    assert!(rt; is_refused && calls == 1);
}

#[test]
fn a_thread_serves_what_a_fetcher_asks_for(rt: HostRuntime) {
    serves::<Brand, _>(&rt, Blank::new());
}
