//! The limit of the memory that the pages of a crawl may take, and the workers that had none.

ghost use Rattle.std.specs.Prelude.{◌≡◌, ◌-◌, ◌*◌, ◌^◌, ◌≤◌, vec_len, IfOk};
ghost use Rattle.gopher_crew.specs.Memory.{taken_with};

use gopher_catalogue::Why;
use gopher_page::BYTES_WHILE_MADE;
use gopher_text::MAX_REPLY;
use std::sync::atomic::{AtomicU64, Ordering};
use std::sync::{RwLock, RwLockReadGuard, RwLockWriteGuard, Wait};

/// How many bytes the pages of a crawl may take, and how many they take. The workers of a desk
/// share it.
///
/// A page that was added takes its `Page::size`. An unfinished one takes `BYTES_WHILE_MADE` for
/// each byte of its reply. Workers make pages side by side while all this fits into the limit. A
/// worker whose page doesn't fit waits until no other makes one, and makes it alone. So only one
/// unfinished page is ever outside of the limit. Whether a finished page fits depends only on those
/// that were added.
#[derive(Drop)]
pub(crate) struct PageMemory {
    limit: AtomicU64,
    // What added pages take.
    taken: AtomicU64,
    // What added and unfinished pages take.
    in_use: AtomicU64,
    // A worker holds it while it makes a page. Pages within the limit are made by its readers.
    making: RwLock<()>,
    refused: AtomicU64,
    stopped: AtomicU64,
}

/// What a worker holds from before it makes a page until the page is added or given up.
#[derive(Drop)]
pub(crate) enum Room<'a> {
    /// A number of bytes of the limit.
    Within(RwLockReadGuard<'a, ()>, u64),
    /// Memory outside of the limit. No other worker makes a page.
    Alone(RwLockWriteGuard<'a, ()>),
}

// The limit of a crawl without a limit: the most that can be counted.
fn no_limit() -> u64
    ensures { result ≡ 2 ^ 64 - 1 }
{
    u64::MAX
}

// What is taken once a page of `size` bytes is too; `None` if the page doesn't fit.
fn with_page(limit: u64, taken: u64, size: u64) -> Option<u64>
    ensures { result ≡ taken_with limit taken size }
{
    if size <= limit && taken <= limit - size {
        Some(taken + size)
    } else {
        None
    }
}

// How many bytes the page of a reply takes while it is made.
fn size_while_made(reply: usize) -> u64
    requires { reply ≤ MAX_REPLY }
    ensures { result ≡ reply * BYTES_WHILE_MADE }
{
    (reply * BYTES_WHILE_MADE) as u64
}

// What is in use while the page of a reply is made too; `None` if it is to be made alone.
fn with_unfinished(limit: u64, in_use: u64, reply: usize) -> Option<u64>
    requires { reply ≤ MAX_REPLY }
    ensures { result ≡ taken_with limit in_use (reply * BYTES_WHILE_MADE) }
{
    with_page(limit, in_use, size_while_made(reply))
}

impl PageMemory {
    /// A limit that no crawl reaches.
    pub fn unlimited() -> PageMemory {
        PageMemory {
            limit: AtomicU64::new(no_limit()),
            taken: AtomicU64::new(0),
            in_use: AtomicU64::new(0),
            making: RwLock::new(()),
            refused: AtomicU64::new(0),
            stopped: AtomicU64::new(0),
        }
    }

    /// Sets the limit.
    pub fn set_limit(&self, bytes: u64) {
        self.limit.store(bytes, Ordering::SeqCst);
    }

    // Takes memory for the unfinished page of a reply, if it fits, and returns whether it does.
    fn begin(&self, reply: usize) -> bool
        requires { reply ≤ MAX_REPLY }
    {
        let limit = self.limit.load(Ordering::SeqCst);
        let in_use = self.in_use.fetch_update(
            Ordering::SeqCst,
            Ordering::SeqCst,
            move |in_use|
                requires { reply ≤ MAX_REPLY }
            { with_unfinished(limit, in_use, reply) },
        );
        in_use.is_ok()
    }

    // Waits for room for the page of a reply.
    fn room<W: Wait>(&self, rt: &W, reply: usize) -> Room<'_>
        requires { reply ≤ MAX_REPLY }
    {
        {
            let making = self.making.read(rt);
            if self.begin(reply) {
                return Room::Within(making, size_while_made(reply));
            }
        }
        Room::Alone(self.making.write(rt))
    }

    /// Returns room for the page of what was fetched, if there is a reply. While the page doesn't
    /// fit, it waits until no other worker makes a page. The wait ends, because a worker that holds
    /// room waits for no other page.
    pub fn room_for<W: Wait>(&self, rt: &W, fetched: &Result<Vec<u8>, Why>) -> Option<Room<'_>>
        requires { IfOk fetched.now (λ bytes. vec_len bytes ≤ MAX_REPLY) }
    {
        match fetched {
            Ok(bytes) => Some(self.room(rt, bytes.len())),
            Err(_) => None,
        }
    }

    /// Gives back the room of a page that was added or given up.
    pub fn leave(&self, room: Option<Room<'_>>) {
        match room {
            Some(Room::Within(_making, size)) => {
                let _before = self.in_use.fetch_sub(size, Ordering::SeqCst);
            }
            Some(Room::Alone(_making)) => {}
            None => {}
        }
    }

    /// Takes memory for a finished page of `size` bytes, if it fits beside the pages that were
    /// added, and returns whether it does. A page that doesn't fit takes nothing, so it never makes
    /// a page of another worker fail.
    pub fn take(&self, size: u64) -> bool {
        let limit = self.limit.load(Ordering::SeqCst);
        let taken = self.taken.fetch_update(
            Ordering::SeqCst,
            Ordering::SeqCst,
            move |taken| with_page(limit, taken, size),
        );
        if taken.is_err() {
            let _before = self.refused.fetch_add(1, Ordering::SeqCst);
            return false;
        }
        let _before = self.in_use.fetch_add(size, Ordering::SeqCst);
        true
    }

    /// Gives back the memory of a finished page that wasn't added.
    pub fn give_back(&self, size: u64) {
        let _taken = self.taken.fetch_sub(size, Ordering::SeqCst);
        let _in_use = self.in_use.fetch_sub(size, Ordering::SeqCst);
    }

    /// Records that a worker stopped because memory ran out.
    pub fn stop_worker(&self) {
        let _before = self.stopped.fetch_add(1, Ordering::SeqCst);
    }

    /// Returns how many workers stopped because memory ran out.
    pub fn stopped(&self) -> u64 {
        self.stopped.load(Ordering::SeqCst)
    }

    /// Returns how many finished pages didn't fit.
    pub fn refused(&self) -> u64 {
        self.refused.load(Ordering::SeqCst)
    }
}
