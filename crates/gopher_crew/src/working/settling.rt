//! `settle`: makes the page of a fetched reply.

ghost use Rattle.std.specs.Arc.{arc_value};
ghost use Rattle.std.specs.Prelude.{◌≡◌, ◌≤◌, vec_len, Err, IfOk, IfErr};
ghost use Rattle.gopher_crew.specs.Work.{Settles};

use gopher_catalogue::Why;
use gopher_item::{Place, Scope};
use gopher_page::Page;
use gopher_text::MAX_REPLY;
use std::alloc::Global;
use std::sync::Arc;

/// Makes the page of a fetched reply, which has at most 1,048,576 bytes (`MAX_REPLY`). If
/// there is none, returns the reason of the fetch, or `NoMemory`.
pub fn settle(
    alloc: Global,
    scope: &Scope,
    place: &Place,
    fetched: Result<Vec<u8>, Why>,
) -> Result<Page, Why>
    requires { IfOk fetched (λ bytes. vec_len bytes ≤ MAX_REPLY) }
    ensures page { IfOk fetched (λ it. Settles scope.now place.now it.items result) }
    ensures unfetched { IfErr fetched (λ why. result ≡ Err why) }
{
    let reply = fetched?;
    let Ok(page) = Page::of(alloc, scope, place, &reply) else {
        return Err(Why::NoMemory);
    };
    Ok(page)
}

/// Does what `settle` does. The page shares the place.
pub(crate) fn settle_shared(
    alloc: Global,
    scope: &Scope,
    place: &Arc<Place>,
    fetched: Result<Vec<u8>, Why>,
) -> Result<Page, Why>
    requires { IfOk fetched (λ bytes. vec_len bytes ≤ MAX_REPLY) }
    ensures page { IfOk fetched (λ it. Settles scope.now (arc_value place.now) it.items result) }
    ensures unfetched { IfErr fetched (λ why. result ≡ Err why) }
{
    let bytes = fetched?;
    let Ok(page) = Page::of_shared(alloc, scope, place, &bytes) else {
        return Err(Why::NoMemory);
    };
    Ok(page)
}
