//! What C holds: a handle, which is empty or has one value.

ghost use Rattle.g3fax.specs.declared.handle.Kept.{Kept};
ghost use Rattle.std.specs.Prelude.{◌≡◌, ◌≢◌, ◌↔◌, ◌⊎◌, IfNone, IfSome, IsTrue, None, Some};
ghost use Rattle.std.specs.declared.option.Option.{Option};

use crate::answering::Answering;
use crate::loose::Loose;
use crate::status::{FULL_HANDLE, NO_MEMORY, OK};
use hdlc::Deframer;
use page_code::{RowCoder, RowReader};
use raster::Page;
use stations::{CodedDocument, StoppableCaller};
use std::alloc::Global;
use std::marker::Model;
use std::{mem, ptr};
use terminals::TimedTerminal;

/// A value of a handle.
// What is large is in a box of its own, so that the box of a handle is small, whatever it has.
#[derive(Drop)]
pub enum Kept {
    /// Octets that a call has made.
    Octets(Vec<u8>),
    /// A page.
    Page(Page),
    /// A deframer.
    Deframer(Box<Deframer>),
    /// The pages of a call; None before the first.
    Document(Option<CodedDocument>),
    /// The terminal of a caller, with its clock.
    Caller(Box<TimedTerminal<StoppableCaller>>),
    /// The terminal of an answerer, with its clock, and with pages that were taken out of it.
    Answerer(Box<Answering>),
    /// A coder of a page row by row.
    RowCoder(Box<RowCoder>),
    /// A reader of a page row by row.
    RowReader(Box<RowReader>),
}

/// A handle: null, or a pointer to a value that the handle owns. C begins it as null.
#[repr(C)]
#[derive(Drop)]
pub struct G3Handle {
    at: *mut u8,
    alloc: Global,
    // no type with a `Vec`, nor a pointer to one, crosses to C: the box at the pointer is the value
    ghost value: { Option Kept },
}

impl Model for G3Handle {
    ghost use Rattle.std.specs.declared.option.Option.{Option};
    ghost use Rattle.std.specs.contracts.impls.GlobalAllocator.TheImpl.{ghosts};
    ghost use Rattle.g3fax.specs.declared.handle.Kept.{Kept};
    ghost use Rattle.g3fax.specs.contracts.handle.Kept.{the_row};
    ghost use Rattle.g3fax.specs.Owned.{owned};

    ghost also_owns = { λ h. owned (ghosts.dealloc_token h.alloc) the_row h.at h.value };
}

// The three functions that reach the pointer: each is proved by hand, and no other one is.
impl G3Handle {
    /// A handle with nothing.
    fn empty(alloc: Global) -> G3Handle
        ensures { result.value ≡ None }
    {
        G3Handle {
            at: ptr::null_mut(),
            alloc,
        }
    }

    /// The handle of a box's pointer.
    pub(crate) fn of(loose: Loose<Kept, Global>) -> G3Handle
        ensures { result.value ≡ Some loose.value }
    {
        let Loose { at, alloc } = loose;
        G3Handle {
            at: at as *mut u8,
            alloc,
        }
    }

    /// The pointer, unless it is null.
    fn into_loose(self) -> Option<Loose<Kept, Global>>
        ensures some { IfSome result (λ loose. self.value ≡ Some loose.value) }
        ensures none { IfNone result (self.value ≡ None) }
    {
        let G3Handle { at, alloc } = self;
        if at.is_null() {
            None
        } else {
            Some(Loose {
                at: at as *mut Kept,
                alloc,
            })
        }
    }
}

/// Returns a box for a value that is made later; None if memory is refused.
pub(crate) fn room(alloc: Global) -> Option<Box<Kept>> {
    match Box::new(alloc, Kept::Octets(Vec::new(alloc))) {
        Ok(boxed) => Some(boxed),
        Err(_) => None,
    }
}

impl G3Handle {
    /// The value, unless there is none.
    fn into_box(self) -> Option<Box<Kept>>
        ensures some { IfSome result (λ boxed. self.value ≡ Some boxed.value) }
        ensures none { IfNone result (self.value ≡ None) }
    {
        let loose = self.into_loose()?;
        Some(loose.into_box())
    }

    /// Takes the value out; the handle is empty then.
    pub(crate) fn take(&mut self, alloc: Global) -> Option<Box<Kept>>
        ensures some { IfSome result (λ boxed. self.old.value ≡ Some boxed.value) }
        ensures none { IfNone result (self.old.value ≡ None) }
        ensures empty { self.new.value ≡ None }
    {
        mem::replace(self, G3Handle::empty(alloc)).into_box()
    }

    /// Puts a value in. A value that was there is forgotten, so the handle has to be empty.
    pub(crate) fn put(&mut self, boxed: Box<Kept>)
        ensures { self.new.value ≡ Some boxed.value }
    {
        *self = G3Handle::of(Loose::of(boxed));
    }

    /// Returns whether it has a value.
    pub(crate) fn is_full(&mut self, alloc: Global) -> bool
        ensures kept { self.new.value ≡ self.old.value }
        ensures full { IsTrue result ↔ (self.old.value ≢ None) }
    {
        match self.take(alloc) {
            Some(boxed) => {
                self.put(boxed);
                true
            }
            None => false,
        }
    }

    /// Fills an empty handle. Returns 102 if it isn't empty, 9 if memory is refused.
    pub(crate) fn fill(&mut self, alloc: Global, kept: Kept) -> u32
        ensures done { result ≡ 0 → (self.old.value ≡ None) × (self.new.value ≡ Some kept) }
        ensures kept { result ≢ 0 → self.new.value ≡ self.old.value }
        ensures full { self.old.value ≢ None → result ≡ 102 }
        ensures only { self.old.value ≡ None → (result ≡ 0) ⊎ (result ≡ 9) }
    {
        if self.is_full(alloc) {
            return FULL_HANDLE;
        }
        let Ok(boxed) = Box::new(alloc, kept) else {
            return NO_MEMORY;
        };
        self.put(boxed);
        OK
    }
}

/// Works on the value of a handle, if it is of a kind: the value is taken out and put back, so that nothing here
/// reaches through the pointer.
macro_rules! opened {
    ($alloc:expr, $handle:expr, $kind:ident, $name:ident => $work:expr) => {
        match $handle.take($alloc) {
            None => crate::status::EMPTY_HANDLE,
            Some(mut kept) => {
                let status = match &mut *kept {
                    crate::handle::Kept::$kind($name) => $work,
                    _ => crate::status::OTHER_HANDLE,
                };
                $handle.put(kept);
                status
            }
        }
    };
}

pub(crate) use opened;

/// Works on what a handle has of a caller, or of an answerer: as `opened` does.
macro_rules! opened_station {
    ($alloc:expr, $handle:expr, $calling:ident => $calls:expr, $answering:ident => $answers:expr) => {
        match $handle.take($alloc) {
            None => crate::status::EMPTY_HANDLE,
            Some(mut kept) => {
                let status = match &mut *kept {
                    crate::handle::Kept::Caller(boxed) => {
                        let $calling = &mut **boxed;
                        $calls
                    }
                    crate::handle::Kept::Answerer(boxed) => {
                        let $answering = &mut **boxed;
                        $answers
                    }
                    _ => crate::status::OTHER_HANDLE,
                };
                $handle.put(kept);
                status
            }
        }
    };
}

pub(crate) use opened_station;

/// Works on the terminal of a handle, a caller's or an answerer's.
macro_rules! opened_both {
    ($alloc:expr, $handle:expr, $name:ident => $work:expr) => {
        crate::handle::opened_station!(
            $alloc,
            $handle,
            calling => {
                let $name = calling;
                $work
            },
            answering => {
                let $name = &mut answering.timed;
                $work
            }
        )
    };
}

pub(crate) use opened_both;

/// Frees what a handle has; it is empty then.
#[unsafe(no_mangle)]
pub extern "C" fn g3_core_free(alloc: Global, handle: &mut G3Handle)
    ensures { handle.new.value ≡ None }
{
    let _gone = handle.take(alloc);
}
