//! The parts of a desk that opens: its writer, its passes and its shares.

ghost use Rattle.std.specs.Prelude.{◌≡◌, ◌+◌, ◌<◌, ◌≤◌, ◌^◌, ◌-◌, [], ◌∷◌, length, replicate, vec_capacity, ◌≢◌, IfOk, IfErr, IfSome};
ghost use Rattle.gopher_crew.specs.declared.fault.DeskFault.TheVariants.{BadCount};
ghost use Rattle.gopher_catalogue.specs.Legal.{IsLegal};
ghost use Rattle.gopher_catalogue.specs.Pages.{pages_found};
ghost use Rattle.gopher_crew.specs.Desk.{shares_at, AllHaveSeen};
ghost use Rattle.gopher_crew.specs.Publication.{ShowsRecord};

use crate::crew::Crew;
use crate::desk::share::Share;
use crate::fault::DeskFault;
use crate::pass::Pass;
use crate::publication::VersionWriter;
use crate::publication::record_prefix::RecordPrefix;
use crate::publication::version::Version;
use gopher_index::Index;
use gopher_item::NoMemory;
use left_right::writer::Writer;
use std::alloc::Global;
use std::sync::Wait;
use std::sync::ledger::Share as Part;

/// The number of parts of a desk's ledger.
pub const PARTS: u64 = 16;

// Makes the writer of a version with these pages and this record, for `passes` readers.
fn writer_of<C: Crew>(
    alloc: Global,
    index: &Index,
    prefix: &RecordPrefix,
    passes: u32,
) -> Result<VersionWriter<C>, NoMemory>
    requires history { prefix.now.history ≡ C.history }
    requires pages { index.now ≡ pages_found prefix.now.events }
    requires legal { IsLegal prefix.now.events }
    requires some { 0 < passes }
    ensures { IfOk result (ShowsRecord C.history prefix.now.events) }
{
    let first = Version::of(alloc, index, prefix)?;
    let second = first.share()?;
    let writer = Writer::new(alloc, first, second, passes as usize)?;
    Ok(writer)
}

// Makes `passes` passes that have seen the published record.
fn passes_of<C: Crew>(
    alloc: Global,
    writer: &VersionWriter<C>,
    prefix: &RecordPrefix,
    passes: u32,
) -> Result<Vec<Pass<C>>, DeskFault>
    requires { prefix.now.history ≡ C.history }
    ensures passes { IfOk result (λ list. AllHaveSeen prefix.now.events passes list.items) }
    ensures other { IfErr result (λ fault. fault ≢ BadCount) }
{
    let mut list = Vec::new(alloc);
    for _index in 0..passes {
        let Some(pass) = Pass::open(alloc, writer, prefix) else {
            return Err(DeskFault::NoEntry);
        };
        let Ok(()) = list.push(pass) else {
            return Err(DeskFault::NoMemory);
        };
    }
    Ok(list)
}

/// Makes the writer of a version with these pages and this record, and `passes` passes that have
/// seen it.
pub fn writer_with_passes<C: Crew, R: Wait>(
    alloc: Global,
    rt: &R,
    index: &Index,
    prefix: &RecordPrefix,
    passes: u32,
) -> Result<(VersionWriter<C>, Vec<Pass<C>>), DeskFault>
    requires history { prefix.now.history ≡ C.history }
    requires pages { index.now ≡ pages_found prefix.now.events }
    requires legal { IsLegal prefix.now.events }
    requires some { 0 < passes }
    ensures shown { IfOk result (λ shown. ShowsRecord C.history prefix.now.events shown.0) }
    ensures passes { IfOk result (λ shown. AllHaveSeen prefix.now.events passes shown.1.items) }
    ensures other { IfErr result (λ fault. fault ≢ BadCount) }
{
    let Ok(writer) = writer_of(alloc, index, prefix, passes) else {
        return Err(DeskFault::NoMemory);
    };
    match passes_of(alloc, &writer, prefix, passes) {
        Ok(list) => Ok((writer, list)),
        Err(fault) => {
            writer.take(rt);
            Err(fault)
        }
    }
}

/// Cuts a ledger of 16 parts into `shares` shares, and appends them to a list that has room. The
/// first share counts all events so far, and made them. All have seen this record.
pub fn cut<C: Crew>(
    whole: Part<C>,
    events: u64,
    shares: u32,
    prefix: &RecordPrefix,
    list: &mut Vec<Share<C>>,
)
    requires history { prefix.now.history ≡ C.history }
    requires made { prefix.now.makers ≡ replicate (length prefix.now.events) 0 }
    requires parts { whole.parts ≡ 16 }
    requires events { (whole.amount ≡ events) × (length prefix.now.events ≡ events + 1) }
    requires counts { (1 ≤ shares) × (shares ≤ 16) }
    requires empty { list.old.items ≡ [] }
    requires room { shares ≤ vec_capacity list.old }
    ensures { list.new.items ≡ shares_at prefix.now.events shares }
{
    let mut whole = whole;
    let first = whole.split_off(PARTS + 1 - u64::from(shares), events);
    list.push_reserved(Share::of(0, events, first, prefix.copy()));
    for index in 0..shares - 1 {
        let part = whole.split_off(1, 0);
        list.push_reserved(Share::of(index + 1, 0, part, prefix.copy()));
    }
}
