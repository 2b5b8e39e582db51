//! `FaultReport`: the report of a check on a site with a fault.

ghost use Rattle.std.specs.Prelude.{[], ◌∷◌, IfOk};
ghost use Rattle.gopher_scope.specs.Finding.{finding_at};
ghost use Rattle.gopher_scope.specs.Report.{IsReport, IsReportOf};

use super::finding::{Finding, detail_of};
use super::whole_site::SiteSize;
use super::{Report, Reported};
use crate::fault::SiteFault;
use std::alloc::Global;

/// What a report adds to the fault of a folder.
#[derive(Clone, Copy, Debug)]
pub(crate) enum Remark {
    /// Nothing.
    Nothing,
    /// The root begins with `~`, which isn't expanded.
    Tilde,
    /// How much the whole site has.
    WholeSite(SiteSize),
}

/// The report of a check on a site with a fault.
#[derive(Debug, Drop)]
pub struct FaultReport {
    /// The fault with which a server fails: the first.
    pub fault: SiteFault,
    /// The path of the file or folder with the fault.
    pub path: Vec<u8>,
    /// The faults that the report lists.
    pub(crate) findings: Vec<Finding>,
    /// What the report adds.
    pub(crate) remark: Remark,
}

/// Reports a fault that names no key in an array. `name` is a key that is given twice, or empty.
pub(crate) fn report_with(
    alloc: Global,
    fault: SiteFault,
    path: &[u8],
    line: Option<usize>,
    name: &[u8],
    remark: Remark,
) -> Reported
    ensures { IfOk result
        (IsReport fault path.now (finding_at fault line name.now ∷ []) remark) }
{
    let finding = Finding {
        fault,
        line,
        detail: detail_of(fault, None, None),
        name: Vec::from_slice(alloc, name)?,
    };
    Ok(Report::Faulty(FaultReport {
        fault,
        path: Vec::from_slice(alloc, path)?,
        findings: Vec::from_array(alloc, [finding])?,
        remark,
    }))
}

/// Reports a fault that names no key in an array, without a remark.
pub(crate) fn report_fault(
    alloc: Global,
    fault: SiteFault,
    path: &[u8],
    line: Option<usize>,
    name: &[u8],
) -> Reported
    ensures { IfOk result (IsReportOf fault path.now line name.now) }
{
    report_with(alloc, fault, path, line, name, Remark::Nothing)
}
