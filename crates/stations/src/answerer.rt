//! The answering station: ITU-T T.30, phases B to E and Annex A.

ghost use Rattle.partial_page.specs.Store.{no_frames, joined_frames};
ghost use Rattle.std.specs.Prelude.{◌≡◌, ◌≢◌, ◌+◌, ◌++◌, ℕ, true, Some, None, Ok, IfOk, IsOk, IsSome, IsTrue, ◌↔◌, ◌⊎◌, false};
ghost use Rattle.std.specs.Prelude.{[], is_some, length};
ghost use Rattle.stations.specs.AnswererStep.{Answerer as AnswererTuple, new_answerer, is_repeated};
ghost use Rattle.partial_page.specs.Assembling.{last_counted, all_there};
ghost use Rattle.stations.specs.AnswererStep.{confirms, first_dcs, later_dcs, keeps_frame, judges_training, answers_pps};
ghost use Rattle.stations.specs.AnswererStep.{takes_block, Steps, StepsOrRefuses, AnswererTakesNoMemory, answers_rr, answers_repeated};
ghost use Rattle.stations.specs.AnswererStep.{leaves, end_after, answerer_ends, answerer_table, answerer_step, answerer_items, is_clear};
ghost use Rattle.stations.specs.AnswererStep.{state_after, stores};
ghost use Rattle.stations.specs.declared.turn.End.TheVariants.{BadPage, NoAnswer};
ghost use Rattle.stations.specs.Layers.{page_read, is_good_training};
ghost use Rattle.partial_page.specs.Assembling.{within_frame_size};
ghost use Rattle.stations.specs.declared.turn.AnswererState.TheVariants.{PhaseB, WaitTraining, Message};
ghost use Rattle.stations.specs.CallerStep.{no_params};
ghost use Rattle.stations.specs.Inputs.{answerer_input};
ghost use Rattle.stations.specs.Limits.{IsLimited};
ghost use Rattle.stations.specs.AnswererKeeping.{AnswererKeeps};
ghost use Rattle.stations.specs.BadPages.{IsBadPage};
ghost use Rattle.stations.specs.HowFar.{open_count};
ghost use Rattle.std.specs.Option.{option_map};
ghost use Rattle.stations.specs.declared.mark.Accepted.{Accepted as AcceptedBlock};

use crate::bad_page::RefusedPage;
use crate::caller::no_params;
use crate::input::AnswererIn;
use crate::laws::{answerers_keep, open_is_limited};
use crate::lending::Items;
use crate::mark::Accepted;
use crate::open_page::OpenPage;
use crate::turn::{AnswererState, End, Turn};
use partial_page::{BlockAssembler, BlockFault, BlockStore};
use raster::Page;
use signals::{Caps, Mark, PageEnd, Params, Pps, Signal, allows, training_good};
use std::alloc::{AllocError, Global};
use std::marker::Model;
use std::mem;

/// The answering station of a call, which stores pages. ITU-T T.30, phases B to E and Annex A.
#[derive(Debug, Drop)]
pub struct Answerer {
    alloc: Global,
    caps: Caps,
    state: AnswererState,
    busy: bool,
    accepted: Option<Accepted>,
    block: BlockAssembler,
    open_page: OpenPage,
    pages: Vec<Page>,
    end: Option<End>,
}

impl Model for Answerer {
    ghost use Rattle.std.specs.Prelude.{◌≡◌, ◌≢◌, None, option_map};
    ghost use Rattle.partial_page.specs.Store.{no_frames};
    ghost use Rattle.stations.specs.AnswererStep.{Answerer as AnswererTuple};
    ghost use Rattle.partial_page.specs.Assembling.{asked_by};
    ghost use Rattle.stations.specs.declared.turn.AnswererState.TheVariants.{Message};

    ghost Value = { AnswererTuple };

    ghost view = { λ a. record {
      caps = a.caps;
      params = a.open_page.params;
      state = a.state;
      busy = a.busy;
      accepted = a.accepted;
      asked = option_map asked_by a.block.asked;
      octets = a.open_page.octets;
      frames = a.block.frames.frames;
      ready = a.block.frames.ready;
      pages = a.pages.items;
      ending = a.end;
    } };

    ghost invariant = { λ a. (a.block.frames.small ≡ a.open_page.params.small) ×
        (a.state ≢ Message → (a.block.frames.frames ≡ no_frames) × (a.block.asked ≡ None)) };
}

impl Answerer {
    /// An answerer in phase B, and its first turn, which is DIS. `caps` must have a receiver and error correction.
    /// Takes no memory.
    pub fn new(alloc: Global, caps: Caps) -> (Answerer, Turn)
        requires receiver { caps.receiver ≡ true }
        requires ecm { caps.ecm ≡ true }
        ensures station { result.0 ≡ new_answerer caps no_params }
        ensures limits { IsLimited result.0 }
        ensures turn { result.1 ≡ Turn.Dis }
    {
        open_is_limited();
        let station = Answerer {
            alloc,
            caps,
            state: AnswererState::PhaseB,
            busy: false,
            accepted: None,
            block: BlockAssembler::new(alloc, false),
            open_page: OpenPage::new(alloc, no_params()),
            pages: Vec::new(alloc),
            end: None,
        };
        (station, Turn::Dis)
    }

    /// Takes an input and returns the turn to be sent, as the table says for any peer; after the end every turn is
    /// silent. Open frames have at most 65,536 octets, the open page 8,388,608. `AllocError` if memory is refused, and
    /// nothing changes; only a PPS that completes a block, and the first FCD kept since the last DCS, may take memory.
    pub fn step(&mut self, input: AnswererIn<'_>) -> Result<Turn, AllocError>
        ensures answers { StepsOrRefuses self.old self.new result (answerer_step self.old (answerer_input input.entry)) }
        ensures lasts { (self.old.ending ≢ None) ⊎ AnswererTakesNoMemory self.old.state (answerer_input input.entry) self.old →
            IsOk result }
        ensures ended { IsSome self.old.ending → (self.new ≡ self.old) × (result ≡ Ok Turn.Silent) }
        ensures limits { IsLimited self.old → IsLimited self.new }
        ensures keeps { AnswererKeeps self.old (answerer_input input.entry) self.new }
    {
        // Laws, which run nothing: their contracts become clauses of the step.
        open_is_limited();
        answerers_keep();
        self.advance(input)
    }

    /// Returns the items of a turn, lent one at a time: one frame; none of a turn that is a caller's. Takes no memory.
    pub fn frames(&self, turn: &Turn) -> Items<'_>
        ensures { result ≡ answerer_items self.now turn.now }
    {
        match *turn {
            Turn::Dis => Items::one(Signal::Dis(self.caps)),
            Turn::Cfr => Items::one(Signal::Cfr),
            Turn::Ftt => Items::one(Signal::Ftt),
            Turn::Mcf => Items::one(Signal::Mcf),
            Turn::Ppr(map) => Items::one(Signal::Ppr(map)),
            Turn::Rnr => Items::one(Signal::Rnr),
            Turn::Dcn => Items::one(Signal::Dcn),
            _ => Items::none(),
        }
    }

    /// Returns the stored pages that weren't taken, in the order in which they came.
    pub fn pages(&self) -> &[Page]
        ensures { result.now ≡ self.now.pages }
    {
        &self.pages
    }

    /// Takes out the stored pages, in the order in which they came; nothing else changes, also not what the answerer
    /// sends. Takes no memory.
    pub fn take_pages(&mut self) -> Vec<Page>
        ensures pages { result.items ≡ self.old.pages }
        ensures left { self.new ≡ record self.old { pages = [] } }
    {
        mem::replace(&mut self.pages, Vec::new(self.alloc))
    }

    /// Returns the stored pages that weren't taken, in the order in which they came; the station is given up.
    pub fn into_pages(self) -> Vec<Page>
        ensures { result.items ≡ self.pages }
    {
        self.pages
    }

    /// Returns why the call ended, if it has.
    pub fn end(&self) -> Option<End>
        ensures { result ≡ self.now.ending }
    {
        self.end
    }

    /// Returns the page over which the call ended with `BadPage`: its octets, those of the open frames among them, how
    /// it was sent, and why it can't be read; None unless the call ended so. `AllocError` if memory is refused; nothing
    /// changes.
    pub fn bad_page(&self) -> Result<Option<RefusedPage>, AllocError>
        ensures { IfOk result (λ page. IsBadPage self.now page) }
    {
        // Joined only when asked for: no step keeps anything for it.
        match self.end {
            Some(End::BadPage) => Ok(Some(self.open_page.refused(&self.block.frames)?)),
            _ => Ok(None),
        }
    }

    /// What the answerer waits for.
    pub(crate) fn state(&self) -> AnswererState
        ensures { result ≡ self.now.state }
    {
        self.state
    }

    /// The parameters of the last DCS that was allowed.
    pub(crate) fn agreed_params(&self) -> Params
        ensures { result ≡ self.now.params }
    {
        self.open_page.params()
    }

    /// The answerer is busy from now on, or not, and nothing else changes.
    pub(crate) fn become_busy(&mut self, busy: bool)
        ensures { self.new ≡ record self.old { busy = busy } }
    {
        self.busy = busy;
    }

    /// The last accepted block.
    pub(crate) fn last_accepted(&self) -> Option<Accepted>
        ensures { result ≡ self.now.accepted }
    {
        self.accepted
    }

    /// Returns the mark of the last accepted block: its page and its place, both modulo 256; None before the first one. Takes no memory.
    pub fn last_mark(&self) -> Option<Mark>
        ensures { result ≡ option_map (λ (accepted : AcceptedBlock). accepted.mark) self.now.accepted }
    {
        match self.accepted {
            Some(accepted) => Some(accepted.mark),
            None => None,
        }
    }

    /// How many octets the open page has.
    pub(crate) fn open_octets(&self) -> u64
        ensures { result ≡ length self.now.octets }
    {
        self.open_page.octet_count()
    }

    /// How many frames are open.
    pub(crate) fn open_frames(&self) -> u16
        ensures { result ≡ open_count self.now.frames }
    {
        count_frames(&self.block.frames)
    }

    /// Whether a block was accepted.
    pub(crate) fn has_accepted_any(&self) -> bool
        ensures { result ≡ is_some self.now.accepted }
    {
        self.accepted.is_some()
    }

    /// Whether the station is in phase B, where it waits for a DCS.
    pub fn in_phase_b(&self) -> bool
        ensures { IsTrue result ↔ (self.now.state ≡ PhaseB) }
    {
        matches!(self.state, AnswererState::PhaseB)
    }
}

// The table: what each state does at an input.
impl Answerer {
    /// Takes an input and returns the turn; after the end every turn is silent.
    fn advance(&mut self, input: AnswererIn<'_>) -> Result<Turn, AllocError>
        ensures answers { StepsOrRefuses self.old self.new result (answerer_step self.old (answerer_input input.entry)) }
        ensures lasts { (self.old.ending ≢ None) ⊎ AnswererTakesNoMemory self.old.state (answerer_input input.entry) self.old →
            IsOk result }
        ensures ended { IsSome self.old.ending → (self.new ≡ self.old) × (result ≡ Ok Turn.Silent) }
    {
        if self.end.is_some() {
            return Ok(Turn::Silent);
        }
        match self.state {
            AnswererState::PhaseB => Ok(self.in_phase_b_step(input)),
            AnswererState::WaitTraining => Ok(self.in_wait_training(input)),
            AnswererState::Message => self.in_message(input),
        }
    }

    /// Takes an input in `PhaseB`.
    fn in_phase_b_step(&mut self, input: AnswererIn<'_>) -> Turn
        requires state { self.old.state ≡ PhaseB }
        ensures { Steps self.old self.new result (answerer_table PhaseB (answerer_input input.entry) self.old) }
    {
        match input {
            AnswererIn::Heard(Signal::Dcs(params)) => self.hear_dcs(params),
            AnswererIn::Heard(Signal::Pps { page, block, .. }) => {
                self.hear_repeated(Mark { page, block })
            }
            AnswererIn::Heard(Signal::Rr) => self.hear_rr(),
            AnswererIn::Heard(Signal::Dcn) => self.hear_dcn(),
            AnswererIn::T2 => self.repeat_dis(),
            AnswererIn::T1 => self.hear_nothing(),
            AnswererIn::Busy(busy) => self.set_busy(busy),
            _ => Turn::Silent,
        }
    }

    /// Takes an input in `WaitTraining`.
    fn in_wait_training(&mut self, input: AnswererIn<'_>) -> Turn
        requires state { self.old.state ≡ WaitTraining }
        ensures { Steps self.old self.new result (answerer_table WaitTraining (answerer_input input.entry) self.old) }
    {
        match input {
            AnswererIn::Heard(Signal::Dcs(params)) => self.hear_dcs(params),
            AnswererIn::Training(octets) => self.hear_training(octets),
            AnswererIn::Heard(Signal::Pps { page, block, .. }) => {
                self.hear_repeated(Mark { page, block })
            }
            AnswererIn::Heard(Signal::Rr) => self.hear_rr(),
            AnswererIn::Heard(Signal::Dcn) => self.hear_dcn(),
            AnswererIn::T2 => self.repeat_dis(),
            AnswererIn::T1 => self.hear_nothing(),
            AnswererIn::Busy(busy) => self.set_busy(busy),
            _ => Turn::Silent,
        }
    }

    /// Takes an input in `Message`. `AllocError` if memory is refused; nothing changes.
    fn in_message(&mut self, input: AnswererIn<'_>) -> Result<Turn, AllocError>
        requires state { self.old.state ≡ Message }
        ensures answers { StepsOrRefuses self.old self.new result (answerer_table Message (answerer_input input.entry) self.old) }
        ensures lasts { AnswererTakesNoMemory Message (answerer_input input.entry) self.old → IsOk result }
    {
        match input {
            AnswererIn::Heard(Signal::Dcs(params)) => Ok(self.hear_dcs(params)),
            AnswererIn::Heard(Signal::Fcd { number, octets }) => self.hear_fcd(number, octets),
            AnswererIn::Heard(
                Signal::Pps {
                    ends,
                    page,
                    block,
                    last,
                },
            ) => {
                let mark = Mark { page, block };
                self.hear_pps(Pps { ends, mark, last })
            }
            AnswererIn::Heard(Signal::Rr) => Ok(self.hear_rr()),
            AnswererIn::Heard(Signal::Dcn) => Ok(self.hear_dcn()),
            AnswererIn::T1 => Ok(self.hear_nothing()),
            AnswererIn::Busy(busy) => Ok(self.set_busy(busy)),
            _ => Ok(Turn::Silent),
        }
    }
}

// The rows of the table but that of a PPS while blocks are taken.
impl Answerer {
    /// Takes a DCS. In `PhaseB` no frame is open and none is asked for, so nothing is forgotten there.
    fn hear_dcs(&mut self, params: Params) -> Turn
        ensures first { self.old.state ≡ PhaseB → Steps self.old self.new result (first_dcs self.old params) }
        ensures later { Steps self.old self.new result (later_dcs self.old params) }
    {
        if !allows(&self.caps, &params) {
            return Turn::Silent;
        }
        self.state = AnswererState::WaitTraining;
        self.open_page.agree(params);
        // The memory for open frames is given up, as the new size of a frame may be another.
        self.block = BlockAssembler::new(self.alloc, params.small);
        Turn::Silent
    }

    /// Takes a training check in `WaitTraining`.
    #[tactic(auto, unfolding(crate::specs::Layers::is_good_training))]
    fn hear_training(&mut self, octets: &[u8]) -> Turn
        requires state { self.old.state ≡ WaitTraining }
        ensures { Steps self.old self.new result (judges_training self.old octets.now) }
    {
        if training_good(octets, self.open_page.params().speed) {
            self.state = AnswererState::Message;
            Turn::Cfr
        } else {
            self.state = AnswererState::PhaseB;
            Turn::Ftt
        }
    }

    /// Takes an FCD in `Message`; one without octets is kept too. `AllocError` if memory is refused; nothing changes.
    #[tactic(auto, unfolding(partial_page::specs::Assembling::within_frame_size))]
    fn hear_fcd(&mut self, number: u8, octets: &[u8]) -> Result<Turn, AllocError>
        requires state { self.old.state ≡ Message }
        ensures answers { StepsOrRefuses self.old self.new result (keeps_frame self.old number octets.now) }
        ensures lasts { (within_frame_size self.old.params octets.now ≡ false) ⊎ (self.old.ready ≡ true) → IsOk result }
    {
        match self.block.frames.put(number, octets) {
            Ok(()) => Ok(Turn::Silent),
            Err(BlockFault::TooLong) => Ok(Turn::Silent),
            Err(BlockFault::NoMemory) => Err(AllocError),
            Err(BlockFault::PageTooLong) => unreachable!(),
        }
    }

    /// Confirms once more if a block was accepted and no frame is open; nothing changes.
    fn hear_rr(&self) -> Turn
        ensures { Steps self.now self.now result (answers_rr self.now) }
    {
        if self.accepted.is_some() && self.is_clear() {
            self.confirm()
        } else {
            Turn::Silent
        }
    }

    /// Outside `Message`, confirms the PPS of the last accepted block and ignores any other; nothing changes.
    fn hear_repeated(&self, mark: Mark) -> Turn
        ensures { Steps self.now self.now result (answers_repeated self.now mark) }
    {
        let repeated = self.has_accepted(mark);
        if repeated {
            self.confirm()
        } else {
            Turn::Silent
        }
    }

    /// Takes a DCN.
    fn hear_dcn(&mut self) -> Turn
        ensures { Steps self.old self.new result (answerer_ends self.old (leaves self.old.accepted)) }
    {
        self.end = Some(self.leaves());
        Turn::Silent
    }

    /// Ends the call since no caller was heard.
    fn hear_nothing(&mut self) -> Turn
        ensures { Steps self.old self.new result (answerer_ends self.old NoAnswer) }
    {
        self.end = Some(End::NoAnswer);
        Turn::Silent
    }

    /// Notes whether pages can't be taken for now.
    fn set_busy(&mut self, busy: bool) -> Turn
        ensures { Steps self.old self.new result (record { next = record self.old { busy = busy }; turn = Turn.Silent }) }
    {
        self.busy = busy;
        Turn::Silent
    }

    /// Sends DIS again.
    fn repeat_dis(&mut self) -> Turn
        requires state { self.old.state ≢ Message }
        ensures { Steps self.old self.new result (record { next = record self.old { state = PhaseB }; turn = Turn.Dis }) }
    {
        self.state = AnswererState::PhaseB;
        Turn::Dis
    }

    /// MCF, or RNR while busy.
    fn confirm(&self) -> Turn
        ensures { result ≡ confirms self.now }
    {
        if self.busy { Turn::Rnr } else { Turn::Mcf }
    }

    /// Whether the mark is that of the last accepted block.
    pub(crate) fn has_accepted(&self, mark: Mark) -> bool
        ensures { result ≡ is_repeated self.now.accepted mark }
    {
        match self.accepted {
            Some(accepted) => accepted.mark.is_same(mark),
            None => false,
        }
    }

    /// Whether no frame is open.
    fn is_clear(&self) -> bool
        ensures { result ≡ is_clear self.now.frames }
    {
        self.block.frames.is_empty()
    }

    /// Why the call ends when the caller leaves.
    fn leaves(&self) -> End
        ensures { result ≡ leaves self.now.accepted }
    {
        match self.accepted {
            Some(accepted) => end_after(accepted.ends),
            None => End::PeerLeft,
        }
    }
}

// A PPS while blocks are taken: the block is accepted, or its missing frames are asked for.
impl Answerer {
    /// Takes a PPS in `Message`. `AllocError` if memory is refused; nothing changes.
    fn hear_pps(&mut self, pps: Pps) -> Result<Turn, AllocError>
        requires state { self.old.state ≡ Message }
        ensures answers { StepsOrRefuses self.old self.new result (answers_pps self.old pps.ends pps.mark pps.last) }
        ensures lasts { (is_repeated self.old.accepted pps.mark ≡ true) ⊎
            (all_there self.old.frames (last_counted self.old.asked pps.mark pps.last) ≡ false) → IsOk result }
    {
        // Any other mark is another block's, in whatever order marks come. Frames kept before count for it: only an
        // accepted block and a DCS clear them.
        if self.has_accepted(pps.mark) {
            return Ok(self.confirm());
        }
        let counted = self.block.counted(pps);
        if self.block.is_whole(counted.last) {
            return self.take_block(counted);
        }
        let map = self.block.missing(counted.last);
        self.block.asked = Some(counted);
        Ok(Turn::Ppr(map))
    }

    /// Takes a block whose frames are all there. `AllocError` if memory is refused; nothing changes.
    fn take_block(&mut self, pps: Pps) -> Result<Turn, AllocError>
        requires whole { all_there self.old.frames pps.last ≡ true }
        ensures { StepsOrRefuses self.old self.new result
            (takes_block self.old pps.ends pps.mark (self.old.octets ++ joined_frames self.old.frames (pps.last + 1))) }
    {
        match pps.ends {
            PageEnd::Null => self.take_open(pps),
            _ => self.take_page(pps),
        }
    }

    /// Takes a block that isn't its page's last. `AllocError` if memory is refused; nothing changes.
    fn take_open(&mut self, pps: Pps) -> Result<Turn, AllocError>
        requires whole { all_there self.old.frames pps.last ≡ true }
        ensures { StepsOrRefuses self.old self.new result
            (takes_block self.old PageEnd.Null pps.mark (self.old.octets ++ joined_frames self.old.frames (pps.last + 1))) }
    {
        if !self.open_page.take(&self.block, pps.last)? {
            return Ok(self.refuse_page());
        }
        Ok(self.accept(PageEnd::Null, pps.mark))
    }

    /// Takes a block that is its page's last. `AllocError` if memory is refused; nothing changes.
    fn take_page(&mut self, pps: Pps) -> Result<Turn, AllocError>
        requires whole { all_there self.old.frames pps.last ≡ true }
        ensures { StepsOrRefuses self.old self.new result
            (stores self.old pps.ends pps.mark (page_read self.old.params (self.old.octets
            ++ joined_frames self.old.frames (pps.last + 1)))) }
    {
        let Some(page) = self.open_page.finish(&self.block, pps.last)? else {
            return Ok(self.refuse_page());
        };
        self.pages.push(page)?;
        self.open_page.clear();
        Ok(self.accept(pps.ends, pps.mark))
    }

    /// Ends the call over a page that is too long or can't be read; mark, frames and pages stay as they were.
    fn refuse_page(&mut self) -> Turn
        ensures next { self.new ≡ record self.old { ending = Some BadPage } }
        ensures turn { result ≡ Turn.Dcn }
    {
        self.end = Some(End::BadPage);
        Turn::Dcn
    }

    /// Accepts a block.
    fn accept(&mut self, ends: PageEnd, mark: Mark) -> Turn
        ensures next { self.new ≡ record self.old {
          state = state_after ends;
          accepted = Some (record { mark = mark; ends = ends });
          asked = None;
          frames = no_frames;
        } }
        ensures turn { result ≡ confirms self.old }
    {
        self.accepted = Some(Accepted { mark, ends });
        self.block.clear();
        self.state = match ends {
            PageEnd::Eom => AnswererState::PhaseB,
            _ => AnswererState::Message,
        };
        self.confirm()
    }
}

/// How many frames a store has.
fn count_frames(store: &BlockStore) -> u16
    ensures { result ≡ open_count store.now.frames }
{
    let _ready = store.ready(); // for the proof: what every store keeps to
    let mut count = 0;
    for number in 0u16..256 {
        if store.frame(number as u8).is_some() {
            count += 1;
        }
    }
    count
}

/// Why the call ends when the caller leaves after a block with this end.
fn end_after(ends: PageEnd) -> End
    ensures { result ≡ end_after ends }
{
    match ends {
        PageEnd::Eop => End::Normal,
        _ => End::PeerLeft,
    }
}
