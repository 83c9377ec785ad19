//! An answerer whose pages are stored before they are confirmed.

ghost use Rattle.conversations.specs.Answering.{AnswersLine, StoresAll, StoresEach, StoresSome, limited_behaviour};
ghost use Rattle.conversations.specs.Conversations.{TakesOrRefuses};
ghost use Rattle.raster.specs.Pages.{PagePixels};
ghost use Rattle.std.specs.Prelude.{◌≡◌, Err, IfOk, IfErr, OnErr, OnOk, is_none};

use crate::conversation::{Conversation, TakeFault};
use crate::line::TimedLine;
use raster::Page;
use stations::LimitedAnswerer;

/// Where pages are stored for good, for example on a disk.
pub trait PageStore {
    // What it is that a page is stored: the store before, the page, and the store after.
    ghost stores: { Self → PagePixels → Self → Type 0 };

    // What it is that a page is refused: the store before, the page, and the store after.
    ghost refuses: { Self → PagePixels → Self → Type 0 };

    /// Why a page couldn't be stored.
    type Refused: Drop;

    /// Stores a page: once it has returned `Ok` the page stays stored. Errs if that can't be done; after that it is given no further page.
    fn store(&mut self, page: Page) -> Result<(), Self::Refused>
        ensures ok { OnOk result (stores self.old page self.new) }
        ensures err { OnErr result (refuses self.old page self.new) };
}

/// Stores pages in order. Errs at the first one that is refused; the pages before it are stored.
pub fn store_pages<P: PageStore>(store: &mut P, pages: Vec<Page>) -> Result<(), P::Refused>
    ensures ok { OnOk result (StoresEach P.stores store.old pages.items store.new) }
    ensures err { OnErr result (StoresSome P.stores P.refuses store.old pages.items store.new) }
{
    for page in pages {
        store.store(page)?;
    }
    Ok(())
}

/// Stores each page that the answerer has accepted, in order. Returns the error of the first page that is refused, if any: the pages before
/// it are stored, and DCN is sent in place of the turn that would confirm it.
pub fn keep_pages<P: PageStore>(
    conversation: &mut Conversation<LimitedAnswerer>,
    store: &mut P,
) -> Option<P::Refused>
    ensures { StoresAll P.stores P.refuses conversation.old conversation.new store.old store.new (is_none result) }
{
    let pages = conversation.take_pages();
    match store_pages(store, pages) {
        Ok(()) => None,
        Err(refused) => {
            conversation.hang_up();
            Some(refused)
        }
    }
}

/// Takes a line, stops the call if it is refused, and stores each page that the answerer accepted at the line before any
/// burst can be sent: a page is confirmed only once it is stored. Returns None if all pages are stored, in order: then the bursts are those
/// of the answerer's turn. Returns the error of the first page that is refused: the pages before it are stored, and DCN is sent in place of
/// the turn. Errs as `Conversation::take` does, with nothing stored.
pub fn answer_line<P: PageStore>(
    conversation: &mut Conversation<LimitedAnswerer>,
    line: &TimedLine,
    store: &mut P,
) -> Result<Option<P::Refused>, TakeFault>
    ensures ok { IfOk result (λ refused.
        AnswersLine P.stores P.refuses conversation.old line.now conversation.new store.old store.new (is_none refused)) }
    ensures stays { OnErr result (store.new ≡ store.old) }
    ensures err { IfErr result (λ fault. TakesOrRefuses limited_behaviour conversation.old line.now conversation.new (Err fault)) }
{
    conversation.take(line)?;
    conversation.refuse();
    Ok(keep_pages(conversation, store))
}
