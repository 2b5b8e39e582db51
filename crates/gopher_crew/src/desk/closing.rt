//! Closing a desk, with all its shares.

ghost use Rattle.std.specs.Prelude.{◌≡◌, ◌≢◌, ◌+◌, ◌<◌, ◌^◌, [], vec_capacity, IfOk, IfErr, IsOk};
ghost use mathlib.Core.List.{IsPrefix};
ghost use Rattle.gopher_crew.specs.Admitted.{AllAdmitted};
ghost use Rattle.gopher_crew.specs.Desk.{events_of, Closes, CountTheSame, HasAll, JoinsAll};

use crate::crew::{Admits, Crew};
use crate::desk::Desk;
use crate::desk::refusals::CloseRefused;
use crate::desk::share::Share;
use gopher_catalogue::Catalogue;
use std::sync::ledger::Book;
use std::sync::{Mutex, Wait};

/// Merges the shares of a list, all of one book, into another share. If that then has all parts of
/// the book, it counts the book's total.
pub fn join<C: Crew>(book: &mut Book<C>, all: &mut Share<C>, shares: &mut Vec<Share<C>>)
    requires { book.old.total < 2 ^ 63 }
    ensures total { book.new.total ≡ book.old.total }
    ensures empty { shares.new.items ≡ [] }
    ensures room { vec_capacity shares.new ≡ vec_capacity shares.old }
    ensures joined { JoinsAll all.old shares.old.items all.new }
    ensures whole { all.new.parts ≡ C.parts → all.new.events ≡ book.old.total }
{
    // For the prover: a share with all parts counts the book's total.
    all.audit(book);
    while let Some(share) = shares.pop() {
        all.merge(book, share);
    }
}

impl<C: Crew, R: Wait + Drop, A: Admits> Desk<C, R, A> {
    /// Closes the desk and returns its catalogue. With all shares that `open` returned, it never
    /// fails. The catalogue's record begins with the one that the desk was opened with and with
    /// what each share saw, which includes all that passes told it (`Pass::tell`). Each outcome in
    /// it is admitted.
    ///
    /// # Errors
    /// `CloseRefused` (62): the shares don't count all events of the record after the first. The
    /// error has the desk, and the shares merged into one.
    pub fn close(self, shares: Vec<Share<C>>) -> Result<Catalogue, CloseRefused<C, R, A>>
        ensures closed { IfOk result (λ catalogue. Closes self shares.items catalogue) }
        ensures admitted { IfOk result (AllAdmitted A.admits) }
        ensures events { IfErr result (λ refused. refused.events ≢ events_of shares.items) }
        ensures joined { IfErr result (λ refused. CountTheSame shares.items refused.shares.items) }
        ensures desk { IfErr result (λ refused. refused.desk ≡ self) }
        ensures whole { HasAll C.parts shares.items → IsOk result }
    {
        let Desk {
            opened,
            opening,
            kept,
            outcomes,
            memory,
        } = self;
        let mut kept = kept.into_inner();
        kept.until_begins(&opened);
        let mut shares = shares;
        let sum = kept.gather(&mut shares);
        let events = kept.events();
        if sum != events {
            let kept = Mutex::new(kept);
            let desk = Desk {
                opened,
                opening,
                kept,
                outcomes,
                memory,
            };
            return Err(CloseRefused {
                desk,
                shares,
                events,
            });
        }
        Ok(kept.end())
    }
}
