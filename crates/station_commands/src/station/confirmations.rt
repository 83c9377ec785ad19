//! What a caller's program tells as its call goes on.

ghost use Rattle.station_commands.specs.Folders.{late_stop};
ghost use Rattle.std.specs.Prelude.{◌≡◌, ◌||◌, false};

use crate::station::folder::{StoppedBy, late_by};
use crate::station::records::{write_confirmed, write_confirmed_words};
use command_files::error_line::ErrorLine;
use command_files::notices::notice_as;
use command_files::streams::Streams;
use conversations::{Conversation, Keeper, Said};
use faults::ToolFault;
use stations::StoppableCaller;

/// A caller keeps no pages: it tells which are confirmed, and that the call is stopped once it has lasted as long as it may.
#[derive(Drop)]
pub(crate) struct Confirmed<'a> {
    streams: &'a Streams<'a>,
    records: bool,
    told: u64,
    late: bool,
    given_up: bool,
}

impl<'a> Confirmed<'a> {
    /// Of a call that has just begun.
    pub(crate) fn new(streams: &'a Streams<'a>, records: bool) -> Confirmed<'a>
        ensures told { result.told ≡ 0 }
        ensures late { result.late ≡ false }
        ensures given_up { result.given_up ≡ false }
    {
        Confirmed {
            streams,
            records,
            told: 0,
            late: false,
            given_up: false,
        }
    }
}

impl Confirmed<'_> {
    /// Why the call was stopped, if it was.
    pub(crate) fn stopped(&self) -> Option<StoppedBy>
        ensures { result ≡ late_stop self.now.late self.now.given_up }
    {
        if self.late {
            return Some(late_by(self.given_up));
        }
        None
    }

    /// Tells of each page that is confirmed and wasn't told, at a time.
    fn tell(&self, at: u64, confirmed: u64) {
        for before in self.told..confirmed {
            self.tell_page(at, before.saturating_add(1));
        }
    }

    /// Tells that the page of this number is confirmed.
    fn tell_page(&self, at: u64, number: u64) {
        let mut line = ErrorLine::new(self.streams);
        let made = if self.records {
            write_confirmed(self.streams.rt().alloc(), at, number, &mut line)
        } else {
            write_confirmed_words(at, number, &mut line)
        };
        line.end(made);
    }

    /// Tells that the call is stopped, if it is late, or that it is given up.
    fn tell_late(&self, late: bool, given_up: bool) {
        if late {
            let _told = notice_as(self.streams, self.records, late_by(given_up).words());
        }
    }
}

/// Returns true if a call is so, or was.
fn either(was: bool, is: bool) -> bool
    ensures { result ≡ (was || is) }
{
    was || is
}

impl Keeper<StoppableCaller> for Confirmed<'_> {
    ghost use Rattle.conversations.specs.Holding.{can_come};
    ghost use Rattle.station_commands.specs.Talks.{TellsConfirmed};
    ghost use Rattle.std.specs.Prelude.{[], None};

    ghost keeps = { λ old c said new after kept. TellsConfirmed old c new after kept };

    ghost takes = { λ confirmed said. can_come None said };

    ghost tells = { λ confirmed. [] };

    type Refused = ToolFault;

    fn can_take(&self, said: &Said) -> bool {
        !matches!(said, Said::Told { .. })
    }

    fn told(&self) -> &[u8] {
        b""
    }

    fn keep(
        &mut self,
        conversation: &mut Conversation<StoppableCaller>,
        _said: &Said,
    ) -> Option<ToolFault> {
        let confirmed = conversation.caller().confirmed();
        self.tell(conversation.clock().now, confirmed);
        self.told = confirmed;
        let (late, given_up) = (conversation.is_late(), conversation.is_given_up());
        self.tell_late(late, given_up);
        self.late = either(self.late, late);
        self.given_up = either(self.given_up, given_up);
        None
    }
}
