//! What a server thread does next with a connection.

ghost use Rattle.std.specs.Prelude.{◌≡◌};
ghost use Rattle.gopher_server.specs.Next.{next_after};

use gopher_serve::Progress;

/// What a server thread does next with a connection.
#[derive(Clone, Copy, Debug, PartialEq, Eq)]
pub enum Next {
    /// It goes on with it.
    GoesOn,
    /// It waits until the client is ready.
    Waits,
    /// It has the connection wait for its turn: a search makes its reply.
    Searches,
    /// Its reply is sent. It reads what the client still sends, until a deadline.
    Lingers,
    /// Its reply is sent. It closes it.
    Ends,
    /// The connection failed, or its client is gone. It closes it.
    Breaks,
}

impl Next {
    /// Returns what follows this progress of the conversation. `lingers` says whether a connection
    /// whose reply is sent lingers.
    pub fn after(progress: Progress, lingers: bool) -> Next
        ensures { result ≡ next_after progress lingers }
    {
        match progress {
            Progress::Paused => Next::GoesOn,
            Progress::Waits => Next::Waits,
            Progress::Works => Next::Searches,
            Progress::Done if lingers => Next::Lingers,
            Progress::Done => Next::Ends,
            Progress::Failed(_) => Next::Breaks,
        }
    }
}
