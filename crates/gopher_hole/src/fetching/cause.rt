//! `Cause`: what stopped a fetch, in the words of a failure line.

ghost use Rattle.std.specs.Prelude.{◌≡◌};
ghost use Rattle.std.specs.IoError.{error_kind, raw_os_error};
ghost use Rattle.gopher_hole.specs.Cause.{cause_of_kind, cause_words};

use std::io::{self, ErrorKind};

/// What stopped a fetch. The reason of the event (`Why`) says at which step.
#[derive(Clone, Copy, Debug, PartialEq, Eq)]
pub enum Cause {
    /// Nothing is known beyond the reason, for example after a reply over its limit.
    Unknown,
    /// A step or the whole fetch took too long.
    TimedOut,
    /// The host's name isn't UTF-8, or the lookup of its addresses failed.
    NoSuchHost,
    /// The server refused the connection.
    Refused,
    /// The server reset the connection.
    Reset,
    /// The server closed the connection before it had the whole request.
    ClosedEarly,
    /// The host was given up after time-outs, so nothing was sent to it.
    GivenUp,
    /// Another error of the system, with its number.
    System(i32),
}

// The cause that an error of this kind means; `code` is the system's number, if it has one.
fn cause_of_kind(kind: ErrorKind, code: Option<i32>) -> Cause
    ensures { result ≡ cause_of_kind kind code }
{
    match kind {
        ErrorKind::TimedOut | ErrorKind::WouldBlock => Cause::TimedOut,
        ErrorKind::ConnectionRefused => Cause::Refused,
        ErrorKind::ConnectionReset => Cause::Reset,
        ErrorKind::BrokenPipe | ErrorKind::WriteZero => Cause::ClosedEarly,
        _ => match code {
            Some(number) => Cause::System(number),
            None => Cause::Unknown,
        },
    }
}

impl Cause {
    /// Returns the cause that an error of a connect, a write or a read means.
    pub fn of(error: io::Error) -> Cause
        ensures { result ≡ cause_of_kind (error_kind error) (raw_os_error error) }
    {
        cause_of_kind(error.kind(), error.raw_os_error())
    }

    /// Returns the words for the cause; none for `Unknown`, and none for `System`, for which the
    /// system has words.
    pub fn words(self) -> &'static str
        ensures { result.now ≡ cause_words self }
    {
        match self {
            Cause::TimedOut => "timed out",
            Cause::NoSuchHost => "no such host",
            Cause::Refused => "connection refused",
            Cause::Reset => "connection reset",
            Cause::ClosedEarly => "closed early",
            Cause::GivenUp => "host given up",
            Cause::Unknown | Cause::System(_) => "",
        }
    }
}
