//! What must follow a PPS, by T.30, Annex A.

ghost use Rattle.captures.specs.Captured.{dcs_must_follow, ends_again, left_by_dcs, missing_after, page_after_dcs, said_after_dcs};
ghost use Rattle.captures.specs.Captured.{taken_after_dcs};
ghost use Rattle.faults.specs.Faults.{IsOutside};
ghost use Rattle.std.specs.Prelude.{◌≡◌, ◌++◌, IfErr, OnOk};

use crate::captured::{Captured, tell};
use faults::ToolFault;
use signals::{Mark, PageEnd};

/// Names what is missing if nothing follows what the last PPS said, and this is the next page.
pub(crate) fn name_due(
    said: Option<PageEnd>,
    page: u8,
    out: &mut Vec<Captured>,
) -> Result<(), ToolFault>
    ensures named { OnOk result (out.new.items ≡ out.old.items ++ missing_after said page) }
    ensures fault { IfErr result IsOutside }
{
    match said {
        Some(PageEnd::Null) => tell(out, Captured::Unfinished),
        Some(PageEnd::Mps) => tell(
            out,
            Captured::MissingAfter {
                page,
                ends: PageEnd::Mps,
            },
        ),
        Some(PageEnd::Eom) => tell(
            out,
            Captured::MissingAfter {
                page,
                ends: PageEnd::Eom,
            },
        ),
        Some(PageEnd::Eop) | None => Ok(()),
    }
}

/// Names what a DCS leaves open, by what the last PPS said.
pub(crate) fn name_left(said: Option<PageEnd>, out: &mut Vec<Captured>) -> Result<(), ToolFault>
    ensures named { OnOk result (out.new.items ≡ out.old.items ++ left_by_dcs said) }
    ensures fault { IfErr result IsOutside }
{
    match said {
        Some(PageEnd::Null) => tell(out, Captured::Unfinished),
        Some(PageEnd::Mps | PageEnd::Eom | PageEnd::Eop) | None => Ok(()),
    }
}

/// What the last PPS said, after a DCS.
pub(crate) fn said_after_dcs(said: Option<PageEnd>) -> Option<PageEnd>
    ensures { result ≡ said_after_dcs said }
{
    match said {
        Some(PageEnd::Mps) => Some(PageEnd::Mps),
        Some(PageEnd::Eom) => Some(PageEnd::Eom),
        Some(PageEnd::Null | PageEnd::Eop) | None => None,
    }
}

/// The number of the first page after a DCS, if this is the next page.
pub(crate) fn page_after_dcs(said: Option<PageEnd>, page: u8) -> u8
    ensures { result ≡ page_after_dcs said page }
{
    match said {
        Some(PageEnd::Eop) => 0,
        Some(PageEnd::Null | PageEnd::Mps | PageEnd::Eom) | None => page,
    }
}

/// The block that was taken last, after a DCS, if this is what the last PPS said then.
pub(crate) fn taken_after_dcs(said: Option<PageEnd>, taken: Option<Mark>) -> Option<Mark>
    ensures { result ≡ taken_after_dcs said taken }
{
    match said {
        Some(_) => taken,
        None => None,
    }
}

/// The end of a page after which a DCS must come, if the page has this end.
pub(crate) fn dcs_must_follow(ends: PageEnd, ended: Option<PageEnd>) -> Option<PageEnd>
    ensures { result ≡ dcs_must_follow ends ended }
{
    match ends {
        PageEnd::Eom => Some(PageEnd::Eom),
        PageEnd::Eop => Some(PageEnd::Eop),
        PageEnd::Null | PageEnd::Mps => ended,
    }
}

/// Returns whether a PPS that is sent again says an end of its page, after another PPS did.
pub(crate) fn ends_again(ends: PageEnd, said: Option<PageEnd>) -> bool
    ensures { result ≡ ends_again ends said }
{
    match (ends, said) {
        (PageEnd::Null, _) | (_, Some(PageEnd::Null)) => false,
        (PageEnd::Mps | PageEnd::Eom | PageEnd::Eop, _) => true,
    }
}
