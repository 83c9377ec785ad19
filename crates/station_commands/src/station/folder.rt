//! The folder that the pages of an answerer go to, by its own hand or another's, and the limits of its call.

ghost use Rattle.station_commands.specs.CallNotes.{stopped_words};
ghost use Rattle.station_commands.specs.Folders.{HasRoom, IsNoRoom, KeepsPages, fault_of, gap_told, is_full, limit_met, limits_of, most_of};
ghost use Rattle.station_commands.specs.Folders.{late_by, stopped_after, stopped_for};
ghost use Rattle.std.specs.Prelude.{◌≡◌, IfErr, IfOk, None, Some, false, is_none};

use crate::station::given::GivenLimits;
use crate::station::records::{
    StoredPage, write_gap, write_gap_words, write_page, write_page_words,
};
use command_files::error_line::ErrorLine;
use command_files::files::images::{hand_page, image_octets, store_page};
use command_files::files::output::Rights;
use command_files::notices::notice_as;
use command_files::streams::Streams;
use conversations::{
    Conversation, Fate, Keeper, PageHolder, PageStore, Said, can_come, hold_pages, keep_pages,
};
use faults::{FAILED, NO_MEMORY, ToolFault};
use raster::Page;
use signals::Params;
use stations::LimitedAnswerer;
use std::io;

/// What a call may have at most.
#[derive(Clone, Copy, Debug, PartialEq, Eq)]
pub(crate) struct CallLimits {
    /// Pages.
    pub(crate) pages: u64,
    /// Octets of their files.
    pub(crate) octets: u64,
}

impl CallLimits {
    /// The limits that are given; 2^64 - 1 for each that isn't.
    pub(crate) fn of(given: GivenLimits) -> CallLimits
        ensures { result ≡ limits_of given }
    {
        CallLimits {
            pages: most_of(given.pages),
            octets: most_of(given.octets),
        }
    }
}

/// A limit, 2^64 - 1 if none is given.
fn most_of(given: Option<u32>) -> u64
    ensures { result ≡ most_of given }
{
    match given {
        Some(most) => u64::from(most),
        None => u64::MAX,
    }
}

/// Why an answerer's program stopped its call.
#[derive(Clone, Copy, Debug, PartialEq, Eq)]
pub(crate) enum StoppedBy {
    /// A further page would have been more than `--most-pages`.
    Pages,
    /// A further page would have been more than `--most-octets`.
    Octets,
    /// The time of `--most-seconds` was over.
    Seconds,
    /// That time was over, and ten seconds more, and the line never fell quiet.
    NeverQuiet,
    /// A page that was handed over is lost.
    LostPage,
}

impl StoppedBy {
    /// Why, in words.
    pub(crate) fn words(self) -> &'static str
        ensures { result.now ≡ stopped_words self }
    {
        match self {
            StoppedBy::Pages => "a further page is dropped, and the call stopped: --most-pages",
            StoppedBy::Octets => "a further page is dropped, and the call stopped: --most-octets",
            StoppedBy::Seconds => "the call is stopped: --most-seconds",
            StoppedBy::NeverQuiet =>
                "the call is given up, as its line never fell quiet: --most-seconds",
            StoppedBy::LostPage => "the call is stopped: a page that was handed over is lost",
        }
    }
}

/// Why a call whose time is over ends: it is given up, or stopped.
pub(crate) fn late_by(given_up: bool) -> StoppedBy
    ensures { result ≡ late_by given_up }
{
    if given_up {
        return StoppedBy::NeverQuiet;
    }
    StoppedBy::Seconds
}

/// Why there is no room for a page.
#[derive(Clone, Copy, Debug, PartialEq, Eq)]
enum NoRoom {
    /// The call has all that it may have of this.
    Full(StoppedBy),
    /// It has no row, or memory is refused.
    Faulty(ToolFault),
}

/// What is stored of a call.
#[derive(Clone, Copy, Debug, PartialEq, Eq)]
pub(crate) struct Tally {
    /// How many pages.
    pub(crate) pages: u64,
    /// The octets of their files.
    pub(crate) octets: u64,
    /// The number from which the next page's file has the first free one.
    pub(crate) next: u64,
}

impl Tally {
    /// Nothing is stored.
    const NOTHING: Tally = Tally {
        pages: 0,
        octets: 0,
        next: 1,
    };
}

/// A page that was handed over, and isn't kept yet.
#[derive(Drop)]
struct HeldPage {
    number: u64,
    octets: u64,
    name: String,
}

/// The folder that the pages of an answerer go to.
#[derive(Drop)]
pub(crate) struct Folder<'a> {
    streams: &'a Streams<'a>,
    name: &'a str,
    rights: Rights,
    records: bool,
    limits: CallLimits,
    holds: bool,
    held: Option<HeldPage>,
    told: String,
    tally: Tally,
    stopped: Option<StoppedBy>,
    failed: Option<io::ErrorKind>,
    has_gap: bool,
    // of the line after which pages are stored: its time, and how they were sent
    at: u64,
    params: Option<Params>,
}

impl PageStore for Folder<'_> {
    ghost use Rattle.station_commands.specs.Folders.{FolderRefuses, FolderStores};

    ghost stores = { λ old page new. FolderStores old page new };

    ghost refuses = { λ old page new. FolderRefuses old page new };

    type Refused = ToolFault;

    // The file is on disk then, and standard error says so.
    fn store(&mut self, page: Page) -> Result<(), ToolFault> {
        let more = match self.room_for(&page) {
            Ok(more) => more,
            Err(why) => return Err(self.refuse(why)),
        };
        match store_page(
            self.streams.rt(),
            self.name,
            self.rights,
            self.tally.next,
            &page,
        ) {
            Ok(written) => {
                self.tally.pages += 1;
                self.tally.octets += more;
                self.tally.next = written.saturating_add(1);
                self.tell_stored(written, &page);
                Ok(())
            }
            Err(refused) => {
                self.failed = refused.kind;
                Err(refused.fault)
            }
        }
    }
}

impl PageHolder for Folder<'_> {
    ghost use Rattle.station_commands.specs.Folders.{FolderCounts, FolderHands, FolderRefuses, held_name};

    ghost hands = { λ old page new. FolderHands old page new };

    ghost refuses = { λ old page new. FolderRefuses old page new };

    ghost stores = { λ old page new. FolderCounts old new };

    ghost held = { λ folder. held_name folder.held };

    type Refused = ToolFault;

    // The file has its name then, and isn't synced: that is for whom it is handed to.
    fn hand_over(&mut self, page: &Page) -> Result<(), ToolFault> {
        let octets = match self.room_for(page) {
            Ok(octets) => octets,
            Err(why) => return Err(self.refuse(why)),
        };
        match hand_page(
            self.streams.rt(),
            self.name,
            self.rights,
            self.tally.next,
            page,
        ) {
            Ok(number) => {
                let name = format!(in self.streams.rt().alloc(); "page-{number}.pbm")?;
                self.told = format!(in self.streams.rt().alloc(); "page {name}\n")?;
                self.tally.next = number.saturating_add(1);
                self.held = Some(HeldPage {
                    number,
                    octets,
                    name,
                });
                Ok(())
            }
            Err(refused) => {
                self.failed = refused.kind;
                Err(refused.fault)
            }
        }
    }

    fn count(&mut self, page: &Page) {
        if let Some(held) = self.held.take() {
            self.tally.pages = self.tally.pages.saturating_add(1);
            self.tally.octets = self.tally.octets.saturating_add(held.octets);
            self.tell_stored(held.number, page);
        }
    }

    fn held(&self) -> Option<&[u8]> {
        match &self.held {
            Some(held) => Some(held.name.as_bytes()),
            None => None,
        }
    }
}

impl<'a> Folder<'a> {
    /// The folder of this name, into which nothing was stored yet.
    pub(crate) fn new(
        streams: &'a Streams<'a>,
        name: &'a str,
        rights: Rights,
        records: bool,
        limits: CallLimits,
    ) -> Folder<'a>
        ensures { (result.limits ≡ limits) × (result.tally ≡ record { pages = 0; octets = 0; next = 1 })
            × (result.holds ≡ false) × (result.held ≡ None) × (result.stopped ≡ None) }
    {
        Folder {
            streams,
            name,
            rights,
            records,
            limits,
            holds: false,
            held: None,
            told: String::new(streams.rt().alloc()),
            tally: Tally::NOTHING,
            stopped: None,
            failed: None,
            has_gap: false,
            at: 0,
            params: None,
        }
    }

    /// The folder, whose pages are handed over to others, or are stored by the program.
    pub(crate) fn holding(self, holds: bool) -> Folder<'a>
        ensures { (result.holds ≡ holds) × (result.limits ≡ self.entry.limits) × (result.tally ≡ self.entry.tally)
            × (result.held ≡ self.entry.held) × (result.stopped ≡ self.entry.stopped) }
    {
        let mut folder = self;
        folder.holds = holds;
        folder
    }

    /// How many pages were stored.
    pub(crate) fn stored(&self) -> u64
        ensures { result ≡ self.now.tally.pages }
    {
        self.tally.pages
    }

    /// Why a page's file couldn't be written, if that is so.
    pub(crate) fn failed(&self) -> Option<io::ErrorKind>
        ensures { result ≡ self.now.failed }
    {
        self.failed
    }

    /// Whether a page's number didn't follow the one before it.
    pub(crate) fn has_gap(&self) -> bool
        ensures { result ≡ self.now.has_gap }
    {
        self.has_gap
    }

    /// Why the program stopped the call, if it did.
    pub(crate) fn stopped(&self) -> Option<StoppedBy>
        ensures { result ≡ self.now.stopped }
    {
        self.stopped
    }

    /// The octets of a page's file, if the call may have that too; or why there is no room for it.
    fn room_for(&self, page: &Page) -> Result<u64, NoRoom>
        ensures room { IfOk result (λ octets. HasRoom self.now.limits self.now.tally page.now octets) }
        ensures none { IfErr result (λ why. IsNoRoom self.now.limits self.now.tally page.now why) }
    {
        if page.rows().is_empty() {
            // no station stores such a page
            return Err(NoRoom::Faulty(FAILED));
        }
        let Ok(more) = image_octets(self.streams.rt().alloc(), page) else {
            return Err(NoRoom::Faulty(NO_MEMORY));
        };
        match self.limit_met(more) {
            Some(limit) => Err(NoRoom::Full(limit)),
            None => Ok(more),
        }
    }

    /// Notes that there is no room for a page. Returns why it is refused: `Io` (8), `NoMemory` (9).
    fn refuse(&mut self, why: NoRoom) -> ToolFault
        ensures noted { self.new ≡ record self.old { stopped = stopped_for why self.old.stopped } }
        ensures fault { result ≡ fault_of why }
    {
        match why {
            NoRoom::Full(limit) => {
                self.stopped = Some(limit);
                FAILED
            }
            NoRoom::Faulty(fault) => fault,
        }
    }

    /// The limit that a page of so many octets would exceed, if it would.
    fn limit_met(&self, more: u64) -> Option<StoppedBy>
        ensures { result ≡ limit_met self.now.limits self.now.tally more }
    {
        if self.tally.pages >= self.limits.pages {
            return Some(StoppedBy::Pages);
        }
        if self.tally.octets > self.limits.octets || more > self.limits.octets - self.tally.octets {
            return Some(StoppedBy::Octets);
        }
        None
    }

    /// Whether a page was dropped since the call has all that it may have.
    fn is_full(&self) -> bool
        ensures { result ≡ is_full self.now.stopped }
    {
        matches!(self.stopped, Some(StoppedBy::Pages | StoppedBy::Octets))
    }

    /// Tells that a page is in the file of this number.
    fn tell_stored(&self, file: u64, page: &Page) {
        let stored = StoredPage {
            at: self.at,
            number: self.tally.pages,
            file,
            params: self.params,
            page,
        };
        let mut line = ErrorLine::new(self.streams);
        let made = if self.records {
            write_page(self.streams.rt().alloc(), &stored, &mut line)
        } else {
            write_page_words(&stored, &mut line)
        };
        line.end(made);
    }

    /// Tells something on standard error.
    fn tell(&self, words: &str) {
        let _told = notice_as(self.streams, self.records, words);
    }

    /// Tells why the call is stopped, if it is.
    fn tell_stopped(&self) {
        if let Some(by) = self.stopped {
            self.tell(by.words());
        }
    }

    /// Notes and tells that a page is lost, if a line says so.
    fn note_lost(&mut self, said: &Said)
        ensures { self.new ≡ record self.old { stopped = stopped_after false None said.now self.old.stopped } }
    {
        match said {
            Said::Told {
                fate: Fate::Lost,
                ..
            } => self.stop_for(StoppedBy::LostPage),
            Said::Told {
                fate: Fate::Kept,
                ..
            }
            | Said::Quiet
            | Said::Busy
            | Said::Received { .. }
            | Said::NotReady
            | Said::Ready
            | Said::Missed
            | Said::Stop
            | Said::End => {}
        }
    }

    /// Notes why the call is stopped, and tells it.
    fn stop_for(&mut self, by: StoppedBy)
        ensures { self.new ≡ record self.old { stopped = Some by } }
    {
        self.stopped = Some(by);
        self.tell_stopped();
    }

    /// Tells once that a page's number, from 0, didn't follow the one before it, if that is so.
    fn tell_gap(&mut self, gap: Option<u8>)
        ensures { self.new ≡ record self.old { has_gap = gap_told self.old.has_gap gap } }
    {
        if self.has_gap {
            return;
        }
        let Some(page) = gap else {
            return;
        };
        self.has_gap = true;
        let number = u64::from(page) + 1;
        let mut line = ErrorLine::new(self.streams);
        let made = if self.records {
            write_gap(self.streams.rt().alloc(), self.at, number, &mut line)
        } else {
            write_gap_words(self.at, number, &mut line)
        };
        line.end(made);
    }

    /// Stores the pages of the answerer, or does what a line says of the page that is held, or hands the next one over. Returns why a page is
    /// refused, if one is.
    fn keep_by(
        &mut self,
        conversation: &mut Conversation<LimitedAnswerer>,
        said: &Said,
    ) -> Option<ToolFault>
        ensures { KeepsPages self.old.holds said.now conversation.old conversation.new self.old self.new (is_none result) }
    {
        if self.holds {
            return hold_pages(conversation, self, said);
        }
        keep_pages(conversation, self)
    }
}

impl Keeper<LimitedAnswerer> for Folder<'_> {
    ghost use Rattle.conversations.specs.Holding.{can_come};
    ghost use Rattle.station_commands.specs.Folders.{KeepsLine, held_name};
    ghost use Rattle.std.specs.Prelude.{string_bytes};

    ghost keeps = { λ old c said new after kept. KeepsLine said old c new after kept };

    ghost takes = { λ folder said. can_come (held_name folder.held) said };

    ghost tells = { λ folder. string_bytes folder.told };

    type Refused = ToolFault;

    fn can_take(&self, said: &Said) -> bool {
        can_come(self, said)
    }

    fn told(&self) -> &[u8] {
        self.told.as_bytes()
    }

    fn keep(
        &mut self,
        conversation: &mut Conversation<LimitedAnswerer>,
        said: &Said,
    ) -> Option<ToolFault> {
        self.at = conversation.clock().now;
        self.params = conversation.answerer().peer();
        self.told.clear();
        self.tell_gap(conversation.gap());
        let refused = self.keep_by(conversation, said);
        if self.is_full() {
            self.tell_stopped();
            return None;
        }
        if refused.is_none() && conversation.is_late() {
            let by = late_by(conversation.is_given_up());
            self.stop_for(by);
            return None;
        }
        self.note_lost(said);
        refused
    }
}
