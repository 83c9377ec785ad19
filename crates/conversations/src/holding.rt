//! An answerer whose pages are stored by others: each stays in the answerer, which is busy, until it is kept.

ghost use Rattle.conversations.specs.Answering.{pages_of};
ghost use Rattle.conversations.specs.Holding.{CountsFirst, HandsNext, HoldsPages, can_come, names_held};
ghost use Rattle.raster.specs.Pages.{PagePixels};
ghost use Rattle.std.specs.Prelude.{◌≡◌, ◌∷◌, [], ℕ, List, OnErr, OnOk, Option, is_none, option_map};

use crate::conversation::Conversation;
use crate::line::{Fate, Said};
use raster::Page;
use stations::LimitedAnswerer;

/// Where the pages of an answerer are handed over, one at a time.
pub trait PageHolder {
    // What it is that a page is handed over: the holder before, the page, and the holder after.
    ghost hands: { Self → PagePixels → Self → Type 0 };

    // What it is that a page is refused: the holder before, the page, and the holder after.
    ghost refuses: { Self → PagePixels → Self → Type 0 };

    // What it is that the page that is held counts as stored: the holder before, the page, and the holder after.
    ghost stores: { Self → PagePixels → Self → Type 0 };

    // The name of the file of the page that is held, if one is.
    ghost held: { Self → Option (List ℕ) };

    /// Why a page couldn't be handed over.
    type Refused: Drop;

    /// Hands a page over, which is held then. Errs if that can't be done; after that it is given no further page.
    fn hand_over(&mut self, page: &Page) -> Result<(), Self::Refused>
        ensures ok { OnOk result (hands self.old page.now self.new) }
        ensures err { OnErr result (refuses self.old page.now self.new) };

    /// Counts the page that is held as kept; none is held then.
    fn count(&mut self, page: &Page)
        ensures { CountsFirst stores (page.now ∷ []) self.old self.new };

    /// The name of the file of the page that is held, if one is.
    fn held(&self) -> Option<&[u8]>
        ensures { option_map (λ name. name.now) result ≡ held self.now };
}

/// Whether a file has the name of the page that is held.
fn names_held(held: Option<&[u8]>, file: &[u8]) -> bool
    ensures { result ≡ names_held (option_map (λ name. name.now) held.entry) file.now }
{
    match held {
        Some(name) => name == file,
        None => false,
    }
}

/// Whether a line that says this can come: one about a page only while the page in that file is held.
pub fn can_come<P: PageHolder>(holder: &P, said: &Said) -> bool
    ensures { result ≡ can_come (P.held holder.now) said.now }
{
    match said {
        Said::Told { file, .. } => names_held(holder.held(), file),
        Said::Quiet
        | Said::Busy
        | Said::Received { .. }
        | Said::NotReady
        | Said::Ready
        | Said::Missed
        | Said::Stop
        | Said::End => true,
    }
}

/// Counts the first page of the answerer as kept.
fn count_page<P: PageHolder>(conversation: &Conversation<LimitedAnswerer>, holder: &mut P)
    ensures { CountsFirst P.stores (pages_of conversation.now) holder.old holder.new }
{
    if let Some(page) = conversation.answerer().pages().first() {
        holder.count(page);
    }
}

/// Hands the first page of the answerer over, if it has one and none is held. Returns why it is refused, if it is; the answerer has hung up then.
fn hand_page<P: PageHolder>(
    conversation: &mut Conversation<LimitedAnswerer>,
    holder: &mut P,
) -> Option<P::Refused>
    ensures { HandsNext P.hands P.refuses (P.held holder.old) (pages_of conversation.old) conversation.old conversation.new
        holder.old holder.new (is_none result) }
{
    if holder.held().is_some() {
        return None;
    }
    let Some(page) = conversation.answerer().pages().first() else {
        return None;
    };
    match holder.hand_over(page) {
        Ok(()) => None,
        Err(refused) => {
            conversation.hang_up();
            Some(refused)
        }
    }
}

/// Does what a line says of the page that is held, or hands the next one over: it stays in the answerer, which takes one page at a time and is
/// busy with it, until it is kept. If it is lost the call is stopped. Returns why a page can't be handed over, if that is so; the answerer has
/// hung up then.
pub fn hold_pages<P: PageHolder>(
    conversation: &mut Conversation<LimitedAnswerer>,
    holder: &mut P,
    said: &Said,
) -> Option<P::Refused>
    ensures { HoldsPages P.hands P.refuses P.stores (P.held holder.old) said.now conversation.old conversation.new holder.old holder.new
        (is_none result) }
{
    match said {
        Said::Told {
            fate: Fate::Kept,
            ..
        } => {
            count_page(conversation, holder);
            conversation.take_pages();
            None
        }
        Said::Told {
            fate: Fate::Lost,
            ..
        } => {
            conversation.stop();
            None
        }
        Said::Quiet
        | Said::Busy
        | Said::Received { .. }
        | Said::NotReady
        | Said::Ready
        | Said::Missed
        | Said::Stop
        | Said::End => hand_page(conversation, holder),
    }
}
