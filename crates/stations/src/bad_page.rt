//! The page over which an answerer's call ended.

ghost use Rattle.std.specs.Prelude.{◌≡◌, IfOk};
ghost use Rattle.stations.specs.BadPages.{IsRefused};

use page_code::{CodesPages, Coding};
use raster::packed::Order;
use run_tables::{CodeFault, CodeFaultKind};
use signals::Params;
use std::alloc::{AllocError, Global};
use std::marker::Model;

/// A page that an answerer couldn't read: from its octets a program can have the rows before the refused bit
/// (`Coding::salvage`).
#[derive(Debug, Drop)]
pub struct RefusedPage {
    params: Params,
    octets: Vec<u8>,
    fault: Option<CodeFault>,
}

impl Model for RefusedPage {
    ghost use Rattle.stations.specs.BadPages.{PageOctets};

    ghost Value = { PageOctets };

    ghost view = { λ p. record { params = p.params; octets = p.octets.items; fault = p.fault } };
}

impl RefusedPage {
    /// The page of octets that were sent by these parameters. `AllocError` if memory is refused.
    pub(crate) fn new(
        alloc: Global,
        params: Params,
        octets: Vec<u8>,
    ) -> Result<RefusedPage, AllocError>
        ensures { IfOk result (λ page. IsRefused params octets.items page) }
    {
        let width = params.width.pixels();
        let read = params
            .coding
            .decode(alloc, &octets, Order::LsbFirst, width, params.fine);
        let fault = match read {
            Ok(_) => None,
            Err(fault) => {
                if fault.kind == CodeFaultKind::NoMemory {
                    return Err(AllocError);
                }
                Some(fault)
            }
        };
        Ok(RefusedPage {
            params,
            octets,
            fault,
        })
    }

    /// Returns the octets of the page's code, the least significant bit of each first: those of its accepted blocks,
    /// then those of the frames that were open at the end, from 0 up to the first that is missing, also beyond the last
    /// one that the PPS counted.
    pub fn octets(&self) -> &[u8]
        ensures { result.now ≡ self.now.octets }
    {
        &self.octets
    }

    /// Returns how the page was sent: its code, width and lines.
    pub fn params(&self) -> Params
        ensures { result ≡ self.now.params }
    {
        self.params
    }

    /// Returns the bit at which decoding the octets is refused, and why; None if they begin with a page: too long for a
    /// call, or whole after all, if the caller counted too few frames.
    pub fn fault(&self) -> Option<CodeFault>
        ensures { result ≡ self.now.fault }
    {
        self.fault
    }
}
