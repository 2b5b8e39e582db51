//! How many connections a server thread closed for room, and when it says so.

ghost use Rattle.std.specs.Prelude.{◌≡◌, nat_lt, None};
ghost use Rattle.gopher_text.specs.Watched.{CountsFailure};
ghost use Rattle.gopher_server.specs.Closings.{TakesDue, are_due};

// The least milliseconds between two messages.
const PAUSE: u64 = 60_000;

/// The connections that were closed for room. Times are milliseconds by one clock.
#[derive(Clone, Copy, Debug)]
pub struct Closings {
    // How many nobody was told of.
    untold: u64,
    // When the last message was.
    told: Option<u64>,
}

impl Closings {
    /// None yet.
    pub fn new() -> Closings
        ensures untold { result.untold ≡ 0 }
        ensures told { result.told ≡ None }
    {
        Closings {
            untold: 0,
            told: None,
        }
    }

    /// Counts one connection.
    pub fn add(&mut self)
        ensures untold { CountsFailure self.old.untold self.new.untold }
        ensures told { self.new.told ≡ self.old.told }
    {
        self.untold = self.untold.saturating_add(1);
    }

    /// Returns whether there are some of which nobody was told.
    pub fn are_untold(&self) -> bool
        ensures { result ≡ nat_lt 0 self.now.untold }
    {
        self.untold > 0
    }

    // Whether they are told at the time `now`: there are some, and the last message is a minute ago
    // or there was none.
    fn are_due(&self, now: u64) -> bool
        ensures { result ≡ are_due self.now now }
    {
        let rests = match self.told {
            Some(told) => now.saturating_sub(told) < PAUSE,
            None => false,
        };
        self.are_untold() && !rests
    }

    /// Takes the number to tell at the time `now`; `None` if nothing is told then.
    pub fn take_due(&mut self, now: u64) -> Option<u64>
        ensures { TakesDue now self.old result self.new }
    {
        if !self.are_due(now) {
            return None;
        }
        let count = self.untold;
        self.untold = 0;
        self.told = Some(now);
        Some(count)
    }
}
