//! The calling station: ITU-T T.30, phases B to E and Annex A.

ghost use Rattle.partial_page.specs.Frames.{cut};
ghost use Rattle.std.specs.Prelude.{◌≡◌, ◌<◌, ◌+◌, cond, nat_lt, List, Bool, drop, length, slice_get, Some, None, Ok, IfOk, IsOk, IsSome, IfSome};
ghost use Rattle.std.specs.Prelude.{IsTrue, ◌↔◌, ◌⊎◌, ◌≢◌};
ghost use Rattle.stations.specs.CallerStep.{Caller as CallerTuple, no_params, all_frames, caller_gives_up, tries_again, answers_dis};
ghost use Rattle.stations.specs.CallerStep.{answers_ftt, answers_ppr, answers_rnr, answers_mcf, goes_on, caller_step, caller_table};
ghost use Rattle.stations.specs.CallerStep.{confirmed, blocks_of, present_block, burst_of, pps_items, training_items, caller_items};
ghost use Rattle.stations.specs.Inputs.{caller_input};
ghost use Rattle.signals.specs.Agreement.{width_of_pixels};
ghost use Rattle.stations.specs.Layers.{agreed_for, lowered, in_one_group, code_octets, within_page_limit, code_blocks_within_limit};
ghost use Rattle.stations.specs.Layers.{code_blocks_at};
ghost use Rattle.stations.specs.CodedDocuments.{coded_page};
ghost use Rattle.stations.specs.Keeping.{KeepsOrRefuses};
ghost use Rattle.stations.specs.Lasting.{LastsOrRefuses};
ghost use Rattle.stations.specs.Left.{SpendsOrRefuses};
ghost use Rattle.stations.specs.CallerFields.{NewCaller, AreCallable, Represents, Answers, AnswersOrRefuses, IsSending, HasBlock};
ghost use Rattle.stations.specs.CallerFields.{GivesPresent, end_of_fields, next_in_page, end_of_first, NoPageStarts, CallerTakesNoMemory};
ghost use Rattle.stations.specs.declared.turn.CallerState.TheVariants.{WaitDis, WaitCfr, WaitBlock, WaitReady};
ghost use Rattle.stations.specs.declared.turn.End.TheVariants.{PeerLeft};
ghost use Rattle.stations.specs.declared.turn.Turn.TheVariants.{Silent};
ghost use Rattle.signals.specs.declared.signal.PageEnd.TheVariants.{Mps};

use crate::coded::{CodedDocument, code_page, copied};
use crate::fault::CallerFault;
use crate::input::CallerIn;
use crate::laws::{callers_end, callers_keep, steps_spend};
use crate::lending::{Items, pps};
use crate::turn::{CallerState, End, Turn};
use page_code::Coding;
use partial_page::laws::octets_have_a_block;
use partial_page::{BlockFault, Blocks};
use raster::{Document, Page};
use signals::{Caps, Modems, PageEnd, PageWidth, Params, Signal, Speed, Wish, agree, lower};
use std::alloc::{AllocError, Global};
use std::marker::Model;

/// The calling station of a call, which sends a document. ITU-T T.30, phases B to E and Annex A.
#[derive(Debug, Drop)]
pub struct Caller {
    alloc: Global,
    document: CodedDocument,
    wish: Wish,
    caps: Caps,
    params: Params,
    state: CallerState,
    page: usize,
    block: usize,
    blocks: Option<Blocks>,
    tries: u8,
    pprs: u8,
    end: Option<End>,
}

impl Model for Caller {
    ghost use Rattle.stations.specs.CallerFields.{CallerFields};

    ghost Value = { CallerFields };

    ghost view = { λ c. record {
      document = c.document;
      wish = c.wish;
      caps = c.caps;
      params = c.params;
      state = c.state;
      page = c.page;
      block = c.block;
      encoded = c.blocks;
      try = c.tries;
      pprs = c.pprs;
      ending = c.end;
    } };
}

impl Caller {
    /// A caller of a document, which waits for a DIS. `WidthNotCallable` (26) exactly if a page isn't 1,728, 2,048 or
    /// 2,432 pixels wide. Takes no memory.
    pub fn new(alloc: Global, document: Document, wish: Wish) -> Result<Caller, CallerFault>
        ensures { NewCaller document wish result }
    {
        Caller::of_coded(alloc, CodedDocument::uncoded(alloc, document), wish)
    }

    /// Returns what `new` returns for the document alone. A page that is coded already, in the coding that both stations
    /// agree on, isn't coded again.
    pub fn of_coded(
        alloc: Global,
        document: CodedDocument,
        wish: Wish,
    ) -> Result<Caller, CallerFault>
        ensures { NewCaller document wish result }
    {
        if !are_callable(document.pages()) {
            return Err(CallerFault::WidthNotCallable);
        }
        Ok(Caller {
            alloc,
            document,
            wish,
            caps: Caps {
                receiver: false,
                modems: Modems::Fallback,
                fine: false,
                widest: PageWidth::W1728,
                t6: false,
                ecm: false,
            },
            params: no_params(),
            state: CallerState::WaitDis,
            page: 0,
            block: 0,
            blocks: None,
            tries: 0,
            pprs: 0,
            end: None,
        })
    }

    /// Takes an input and returns the turn to be sent, as the table says for any peer; after the end every turn is
    /// silent. `AllocError` if memory is refused, and nothing changes; only a CFR, and an MCF after which a page
    /// starts, may take memory.
    pub fn step(&mut self, input: CallerIn<'_>) -> Result<Turn, AllocError>
        ensures answers { AnswersOrRefuses self.old self.new result (λ t. caller_step t (caller_input input.entry)) }
        ensures lasts { (self.old.ending ≢ None) ⊎ CallerTakesNoMemory self.old.state (caller_input input.entry) self.old → IsOk result }
        ensures ended { IsSome self.old.ending → (self.new ≡ self.old) × (result ≡ Ok Silent) }
        ensures spends { SpendsOrRefuses self.old (caller_input input.entry) self.new result }
        ensures keeps { KeepsOrRefuses self.old (caller_input input.entry) self.new result }
        ensures uses { LastsOrRefuses self.old (caller_input input.entry) self.new result }
    {
        // Laws, which run nothing: their contracts become clauses of the step. No clause says that a step with enough
        // memory succeeds; tests do.
        steps_spend();
        callers_keep();
        callers_end();
        self.advance(input)
    }

    /// Returns the items of a turn, lent one at a time; none if the state has nothing for that turn. Takes no memory.
    pub fn frames(&self, turn: &Turn) -> Items<'_>
        ensures { (t : CallerTuple) → Represents self.now t → result ≡ caller_items t turn.now }
    {
        match *turn {
            Turn::Training => self.training(),
            Turn::Burst(map) => self.burst(map),
            Turn::Pps => self.pps_alone(),
            Turn::Rr => Items::one(Signal::Rr),
            Turn::Dcn => Items::one(Signal::Dcn),
            _ => Items::none(),
        }
    }

    /// Returns how many pages are confirmed: the answerer sent MCF for their last block.
    pub fn confirmed(&self) -> u64
        ensures { (t : CallerTuple) → Represents self.now t → result ≡ confirmed t }
    {
        self.page as u64
    }

    /// Returns the document's pages, in order, borrowed.
    pub fn pages(&self) -> &[Page]
        ensures { result.now ≡ self.now.document }
    {
        self.document.pages()
    }

    /// Returns the document, and how many of its first pages are confirmed; the station is given up. A program that
    /// calls again sends the others.
    pub fn into_document(self) -> (Document, u64)
        ensures document { result.0 ≡ self.document }
        ensures confirmed { (t : CallerTuple) → Represents self t → result.1 ≡ confirmed t }
    {
        let confirmed = self.confirmed();
        (self.document.into_document(), confirmed)
    }

    /// Returns the document with the codes of its pages that the caller was made with; the station is given up.
    pub fn into_coded(self) -> CodedDocument
        ensures { result ≡ self.document }
    {
        self.document
    }

    /// Whether the caller waits for the DIS of a further group: a page is confirmed, and the next one has another width
    /// or other lines.
    pub fn between_groups(&self) -> bool
        ensures { (t : CallerTuple) → Represents self.now t → IsTrue result ↔ ((t.state ≡ WaitDis) × (0 < confirmed t)) }
    {
        matches!(self.state, CallerState::WaitDis) && self.page > 0
    }

    /// Whether the caller waits for a DIS: at the start of a call, and after each group with another one behind it.
    pub fn waits_for_dis(&self) -> bool
        ensures { (t : CallerTuple) → Represents self.now t → IsTrue result ↔ (t.state ≡ WaitDis) }
    {
        matches!(self.state, CallerState::WaitDis)
    }

    /// What the caller waits for.
    pub(crate) fn state(&self) -> CallerState
        ensures { result ≡ self.now.state }
    {
        self.state
    }

    /// The capabilities of the last DIS that was agreed on.
    pub(crate) fn agreed_caps(&self) -> Caps
        ensures { result ≡ self.now.caps }
    {
        self.caps
    }

    /// Whether the call has ended.
    pub(crate) fn has_ended(&self) -> bool
        ensures { IsTrue result ↔ IsSome self.now.ending }
    {
        self.end.is_some()
    }

    /// How many pages the document has.
    pub(crate) fn page_count(&self) -> u64
        ensures { result ≡ length self.now.document }
    {
        self.document.pages().len() as u64
    }

    /// How often the last command was sent.
    pub(crate) fn tries(&self) -> u8
        ensures { result ≡ self.now.try }
    {
        self.tries
    }

    /// How often frames of the present block were sent again.
    pub(crate) fn resends(&self) -> u8
        ensures { result ≡ self.now.pprs }
    {
        self.pprs
    }

    /// Returns why the call ended, if it has.
    pub fn end(&self) -> Option<End>
        ensures { (t : CallerTuple) → Represents self.now t → result ≡ t.ending }
    {
        self.end
    }
}

// The table: what each state does at an input.
impl Caller {
    /// Takes an input and returns the turn; after the end every turn is silent.
    fn advance(&mut self, input: CallerIn<'_>) -> Result<Turn, AllocError>
        ensures answers { AnswersOrRefuses self.old self.new result (λ t. caller_step t (caller_input input.entry)) }
        ensures lasts { (self.old.ending ≢ None) ⊎ CallerTakesNoMemory self.old.state (caller_input input.entry) self.old → IsOk result }
        ensures ended { IsSome self.old.ending → (self.new ≡ self.old) × (result ≡ Ok Silent) }
    {
        if self.end.is_some() {
            return Ok(Turn::Silent);
        }
        match self.state {
            CallerState::WaitDis => Ok(self.in_wait_dis(input)),
            CallerState::WaitCfr => self.in_wait_cfr(input),
            CallerState::WaitBlock => self.in_wait_block(input),
            CallerState::WaitReady => self.in_wait_ready(input),
        }
    }

    /// Takes an input in `WaitDis`.
    fn in_wait_dis(&mut self, input: CallerIn<'_>) -> Turn
        requires state { self.old.state ≡ WaitDis }
        requires goes_on { self.old.ending ≡ None }
        ensures { Answers self.old self.new result (caller_table WaitDis (caller_input input.entry)) }
    {
        match input {
            CallerIn::Heard(Signal::Dis(caps)) => self.hear_dis(caps),
            CallerIn::Heard(Signal::Dcn) => self.hear_dcn(),
            CallerIn::Timeout => self.give_up(End::NoAnswer),
            _ => Turn::Silent,
        }
    }

    /// Takes an input in `WaitCfr`.
    fn in_wait_cfr(&mut self, input: CallerIn<'_>) -> Result<Turn, AllocError>
        requires state { self.old.state ≡ WaitCfr }
        requires goes_on { self.old.ending ≡ None }
        ensures answers { AnswersOrRefuses self.old self.new result (caller_table WaitCfr (caller_input input.entry)) }
        ensures lasts { CallerTakesNoMemory WaitCfr (caller_input input.entry) self.old → IsOk result }
    {
        match input {
            CallerIn::Heard(Signal::Cfr) => self.hear_cfr(),
            CallerIn::Heard(Signal::Ftt) => Ok(self.hear_ftt()),
            // A DIS in place of CFR is one more try; the capabilities stay those of the DIS that was agreed on.
            CallerIn::Heard(Signal::Dis(_)) => Ok(self.try_again(Turn::Training)),
            CallerIn::Heard(Signal::Dcn) => Ok(self.hear_dcn()),
            CallerIn::Timeout => Ok(self.try_again(Turn::Training)),
            _ => Ok(Turn::Silent),
        }
    }

    /// Takes an input in `WaitBlock`.
    fn in_wait_block(&mut self, input: CallerIn<'_>) -> Result<Turn, AllocError>
        requires state { self.old.state ≡ WaitBlock }
        requires goes_on { self.old.ending ≡ None }
        ensures answers { AnswersOrRefuses self.old self.new result (caller_table WaitBlock (caller_input input.entry)) }
        ensures lasts { CallerTakesNoMemory WaitBlock (caller_input input.entry) self.old → IsOk result }
    {
        match input {
            CallerIn::Heard(Signal::Mcf) => self.hear_mcf(),
            CallerIn::Heard(Signal::Ppr(map)) => Ok(self.hear_ppr(map)),
            CallerIn::Heard(Signal::Rnr) => Ok(self.hear_rnr()),
            CallerIn::Heard(Signal::Dcn) => Ok(self.hear_dcn()),
            CallerIn::Timeout => Ok(self.try_again(Turn::Pps)),
            _ => Ok(Turn::Silent),
        }
    }

    /// Takes an input in `WaitReady`.
    fn in_wait_ready(&mut self, input: CallerIn<'_>) -> Result<Turn, AllocError>
        requires state { self.old.state ≡ WaitReady }
        requires goes_on { self.old.ending ≡ None }
        ensures answers { AnswersOrRefuses self.old self.new result (caller_table WaitReady (caller_input input.entry)) }
        ensures lasts { CallerTakesNoMemory WaitReady (caller_input input.entry) self.old → IsOk result }
    {
        match input {
            CallerIn::Heard(Signal::Mcf) => self.hear_mcf(),
            CallerIn::Heard(Signal::Ppr(map)) => Ok(self.hear_ppr(map)),
            CallerIn::Heard(Signal::Rnr) => Ok(self.hear_rnr()),
            CallerIn::Heard(Signal::Dcn) => Ok(self.hear_dcn()),
            CallerIn::Timeout => Ok(self.try_again(Turn::Rr)),
            CallerIn::T5 => Ok(self.give_up(End::StillBusy)),
            _ => Ok(Turn::Silent),
        }
    }
}

// The rows of the table but that of an MCF.
impl Caller {
    /// Takes a DIS in `WaitDis`.
    fn hear_dis(&mut self, caps: Caps) -> Turn
        requires state { self.old.state ≡ WaitDis }
        requires goes_on { self.old.ending ≡ None }
        ensures { Answers self.old self.new result (λ t. answers_dis t caps (agreed_for caps t.wish (slice_get t.document (confirmed t)))) }
    {
        let Some(params) = self.agreed(&caps) else {
            return self.give_up(End::NotCompatible);
        };
        self.caps = caps;
        self.params = params;
        self.state = CallerState::WaitCfr;
        self.tries = 1;
        Turn::Training
    }

    /// What both stations agree on for the page due.
    #[tactic(auto, unfolding(crate::specs::Layers::agreed_for))]
    fn agreed(&self, caps: &Caps) -> Option<Params>
        ensures { result ≡ agreed_for caps.now self.now.wish (slice_get self.now.document self.now.page) }
    {
        let page = self.document.pages().get(self.page)?;
        let width = PageWidth::of_pixels(page.width())?;
        agree(caps, &self.wish, width, page.fine()).ok()
    }

    /// Takes a CFR in `WaitCfr`. `AllocError` if memory is refused; nothing changes.
    fn hear_cfr(&mut self) -> Result<Turn, AllocError>
        requires state { self.old.state ≡ WaitCfr }
        requires goes_on { self.old.ending ≡ None }
        ensures { AnswersOrRefuses self.old self.new result (λ t. goes_on t Mps (slice_get (blocks_of t) t.place)) }
    {
        octets_have_a_block();
        let number = self.number();
        let Some(blocks) = self.code_blocks(number)? else {
            return Ok(self.give_up(End::PageTooLong));
        };
        Ok(self.send_page(number, blocks))
    }

    /// Takes an FTT in `WaitCfr`.
    fn hear_ftt(&mut self) -> Turn
        requires state { self.old.state ≡ WaitCfr }
        requires goes_on { self.old.ending ≡ None }
        ensures { Answers self.old self.new result (λ t. answers_ftt t (lowered t.caps t.wish t.params)) }
    {
        let Some(params) = self.lowered() else {
            return self.give_up(End::Training);
        };
        self.params = params;
        self.tries = 1;
        Turn::Training
    }

    /// The parameters at the next lower speed.
    #[tactic(auto, unfolding(crate::specs::Layers::lowered))]
    fn lowered(&self) -> Option<Params>
        ensures { result ≡ lowered self.now.caps self.now.wish self.now.params }
    {
        let speed = lower(&self.caps, &self.wish, self.params.speed)?;
        Some(Params {
            speed,
            ..self.params
        })
    }

    /// Takes a PPR.
    fn hear_ppr(&mut self, map: [u8; 32]) -> Turn
        requires state { IsSending self.old.state }
        requires goes_on { self.old.ending ≡ None }
        ensures { Answers self.old self.new result (λ t. answers_ppr t map) }
    {
        if self.pprs >= 3 {
            return self.give_up(End::Unreadable);
        }
        self.state = CallerState::WaitBlock;
        self.tries = 1;
        self.pprs += 1;
        Turn::Burst(map)
    }

    /// Takes an RNR.
    fn hear_rnr(&mut self) -> Turn
        requires state { IsSending self.old.state }
        requires goes_on { self.old.ending ≡ None }
        ensures { Answers self.old self.new result (λ t. answers_rnr t) }
    {
        self.state = CallerState::WaitReady;
        self.tries = 1;
        Turn::Rr
    }

    /// Takes a DCN.
    fn hear_dcn(&mut self) -> Turn
        ensures { Answers self.old self.new result (λ t. record { next = record t { ending = Some PeerLeft }; turn = Silent }) }
    {
        self.end = Some(End::PeerLeft);
        Turn::Silent
    }

    /// Sends the turn once more; after the third try the call ends.
    fn try_again(&mut self, turn: Turn) -> Turn
        ensures { Answers self.old self.new result (λ t. tries_again t turn) }
    {
        // Three tries, and three PPRs a block, are this project's choice, as is what ends a call.
        if self.tries < 3 {
            self.tries += 1;
            turn
        } else {
            self.give_up(End::NoReply)
        }
    }

    /// Ends the call.
    fn give_up(&mut self, why: End) -> Turn
        ensures { Answers self.old self.new result (λ t. caller_gives_up t why) }
    {
        self.end = Some(why);
        Turn::Dcn
    }
}

// An MCF: the block is confirmed, and the next one goes out, or a group or the document is through.
impl Caller {
    /// Takes an MCF. `AllocError` if memory is refused; nothing changes.
    fn hear_mcf(&mut self) -> Result<Turn, AllocError>
        requires state { IsSending self.old.state }
        requires goes_on { self.old.ending ≡ None }
        ensures answers { AnswersOrRefuses self.old self.new result (λ t. answers_mcf t (slice_get (blocks_of t) t.place)) }
        ensures lasts { NoPageStarts self.old → IsOk result }
    {
        octets_have_a_block();
        if let Some(block) = self.next_block() {
            return Ok(self.send_block(block));
        }
        let Some(number) = self.next_page() else {
            return Ok(Turn::Silent);
        };
        match self.page_end() {
            PageEnd::Eom => {
                self.page = number;
                self.state = CallerState::WaitDis;
                Ok(Turn::Silent)
            }
            PageEnd::Mps => {
                let Some(blocks) = self.code_blocks(number)? else {
                    self.page = number;
                    self.end = Some(End::PageTooLong);
                    return Ok(Turn::Dcn);
                };
                Ok(self.send_page(number, blocks))
            }
            PageEnd::Eop | PageEnd::Null => {
                self.page = number;
                self.end = Some(End::Normal);
                Ok(Turn::Dcn)
            }
        }
    }

    /// The place of the block after the present one in its page.
    fn next_block(&self) -> Option<usize>
        ensures { result ≡ next_in_page self.now.encoded self.now.block }
    {
        let blocks = self.blocks.as_ref()?;
        let count = blocks.count();
        if count > self.block && count - self.block > 1 {
            Some(self.block + 1)
        } else {
            None
        }
    }

    /// The number of the page after the present one.
    fn next_page(&self) -> Option<usize>
        ensures { result ≡ cond (nat_lt self.now.page (length self.now.document)) (Some (self.now.page + 1)) None }
    {
        if self.page < self.document.pages().len() {
            Some(self.page + 1)
        } else {
            None
        }
    }

    /// How the present page ends.
    fn page_end(&self) -> PageEnd
        ensures { result ≡ end_of_first (drop self.now.page self.now.document) }
    {
        let pages = self.document.pages();
        let Some(page) = pages.get(self.page) else {
            return PageEnd::Eop;
        };
        let Some(next) = pages.get(self.page + 1) else {
            return PageEnd::Eop;
        };
        if is_alike(page, next) {
            PageEnd::Mps
        } else {
            PageEnd::Eom
        }
    }

    /// The number of the present page, from 0.
    fn number(&self) -> usize
        ensures { result ≡ self.now.page }
    {
        self.page
    }

    /// The blocks of the code of the page at a number, if there is one and a call can carry it.
    fn code_blocks(&self, number: usize) -> Result<Option<Blocks>, AllocError>
        ensures { IfOk result (λ blocks. blocks ≡ code_blocks_at self.now.params (slice_get self.now.document number)) }
    {
        let Some(page) = self.document.pages().get(number) else {
            return Ok(None);
        };
        let made = self.document.made(number, self.params.coding);
        code_blocks(self.alloc, self.params, page, made)
    }

    /// Sends the first block of the page at a number, which has this code.
    fn send_page(&mut self, page: usize, blocks: Blocks) -> Turn
        ensures next { self.new ≡ record self.old { state = WaitBlock; page = page; block = 0; encoded = Some blocks; try = 1; pprs = 0 } }
        ensures turn { result ≡ Turn.Burst all_frames }
    {
        self.state = CallerState::WaitBlock;
        self.page = page;
        self.block = 0;
        self.blocks = Some(blocks);
        self.tries = 1;
        self.pprs = 0;
        every_frame()
    }

    /// Sends the block at a place of the present page for the first time.
    fn send_block(&mut self, block: usize) -> Turn
        ensures next { self.new ≡ record self.old { state = WaitBlock; block = block; try = 1; pprs = 0 } }
        ensures turn { result ≡ Turn.Burst all_frames }
    {
        self.state = CallerState::WaitBlock;
        self.block = block;
        self.tries = 1;
        self.pprs = 0;
        every_frame()
    }
}

// The items of the turns.
impl Caller {
    /// DCS and a training check; none while the caller waits for a DIS, also of a further group.
    fn training(&self) -> Items<'_>
        ensures { (t : CallerTuple) → Represents self.now t → result ≡ training_items t.state t.params }
    {
        match self.state {
            CallerState::WaitDis => Items::none(),
            _ => Items::training(self.agreed_params()),
        }
    }

    /// The marked frames of the present block, three RCP and PPS.
    fn burst(&self, map: [u8; 32]) -> Items<'_>
        ensures { (t : CallerTuple) → Represents self.now t → result ≡ burst_of map (present_block t) }
    {
        let page = self.number();
        let place = self.place();
        let ends = self.block_end();
        let Some(blocks) = self.sending() else {
            return Items::none();
        };
        Items::burst(blocks, place, map, ends, page)
    }

    /// The PPS of the present block.
    fn pps_alone(&self) -> Items<'_>
        ensures { (t : CallerTuple) → Represents self.now t → result ≡ pps_items (present_block t) }
    {
        let page = self.number();
        let place = self.place();
        let ends = self.block_end();
        let Some(blocks) = self.sending() else {
            return Items::none();
        };
        Items::one(pps(blocks, place, ends, page))
    }

    /// The blocks of the page that is being sent.
    pub(crate) fn sending(&self) -> Option<&Blocks>
        ensures present { GivesPresent self.now result }
        ensures coded { IfSome result (λ blocks. self.now.encoded ≡ Some blocks.now) }
    {
        // Where an ended caller was among the blocks is kept no longer; RR, DCN and DCS need no block.
        if self.end.is_some() {
            return None;
        }
        match self.state {
            CallerState::WaitBlock => self.coded_blocks(),
            CallerState::WaitReady => self.coded_blocks(),
            _ => None,
        }
    }

    /// The blocks of the present page, if the present one is among them.
    fn coded_blocks(&self) -> Option<&Blocks>
        ensures { HasBlock self.now result }
    {
        let blocks = self.blocks.as_ref()?;
        if self.block < blocks.count() {
            Some(blocks)
        } else {
            None
        }
    }

    /// The end that the present block's PPS carries.
    fn block_end(&self) -> PageEnd
        ensures { result ≡ end_of_fields self.now }
    {
        match self.next_block() {
            Some(_) => PageEnd::Null,
            None => self.page_end(),
        }
    }

    /// The place of the present block in its page, from 0.
    pub(crate) fn place(&self) -> usize
        ensures { result ≡ self.now.block }
    {
        self.block
    }

    /// The parameters of the present group.
    pub(crate) fn agreed_params(&self) -> Params
        ensures { result ≡ self.now.params }
    {
        self.params
    }
}

/// Whether a call can have the width of each page.
fn are_callable(pages: &[Page]) -> bool
    ensures { IsTrue result ↔ AreCallable pages.now }
{
    for page in pages {
        if !is_callable(page) {
            return false;
        }
    }
    true
}

/// Whether a call can have a page's width: 1,728, 2,048 or 2,432 pixels.
fn is_callable(page: &Page) -> bool
    ensures { IsTrue result ↔ IsSome (width_of_pixels page.now.width) }
{
    PageWidth::of_pixels(page.width()).is_some()
}

/// The parameters of a station that has none yet: made up, and shown by no turn.
pub(crate) fn no_params() -> Params
    ensures { result ≡ no_params }
{
    Params {
        speed: Speed::V27At2400,
        fine: false,
        width: PageWidth::W1728,
        coding: Coding::OneDim,
        small: false,
    }
}

/// Whether two pages are of one group.
#[tactic(auto, unfolding(crate::specs::Layers::in_one_group))]
fn is_alike(page: &Page, next: &Page) -> bool
    ensures { result ≡ in_one_group page.now next.now }
{
    page.width() == next.width() && page.fine() == next.fine()
}

/// The turn that sends every frame of a block.
#[tactic(auto, unfolding(crate::specs::CallerStep::all_frames))]
fn every_frame() -> Turn
    ensures { result ≡ Turn.Burst all_frames }
{
    Turn::Burst([255; 32])
}

/// The blocks of a page's code, if a call can carry it; `made` are the code's octets, if they were made.
#[tactic(auto, unfolding(crate::specs::Layers::code_blocks, crate::specs::Layers::code_within_limit))]
fn code_blocks(
    alloc: Global,
    params: Params,
    page: &Page,
    made: Option<&[u8]>,
) -> Result<Option<Blocks>, AllocError>
    requires rows { 0 < length page.now.rows }
    requires made { IfSome made (λ octets. octets.now ≡ coded_page params.coding page.now) }
    ensures { IfOk result (λ blocks. blocks ≡ code_blocks_within_limit params page.now) }
{
    let octets = encoded(alloc, params, page, made)?;
    cut_within_limit(alloc, octets, params.small)
}

/// Octets cut into blocks; None if they are too many for a page of a call.
#[tactic(auto, unfolding(crate::specs::Layers::within_page_limit))]
fn cut_within_limit(
    alloc: Global,
    octets: Vec<u8>,
    small: bool,
) -> Result<Option<Blocks>, AllocError>
    ensures { IfOk result (λ blocks. blocks ≡ cond (within_page_limit octets.items) (Some (cut small octets.items)) None) }
{
    match Blocks::cut(alloc, octets, small) {
        Ok(blocks) => Ok(Some(blocks)),
        Err(BlockFault::PageTooLong) => Ok(None),
        Err(BlockFault::NoMemory) => Err(AllocError),
        Err(BlockFault::TooLong) => unreachable!(),
    }
}

/// The octets of a page's code: a copy of those that were made, if any.
#[tactic(auto, unfolding(crate::specs::Layers::code_octets))]
fn encoded(
    alloc: Global,
    params: Params,
    page: &Page,
    made: Option<&[u8]>,
) -> Result<Vec<u8>, AllocError>
    requires rows { 0 < length page.now.rows }
    requires made { IfSome made (λ octets. octets.now ≡ coded_page params.coding page.now) }
    ensures { IfOk result (λ octets. octets.items ≡ code_octets params page.now) }
{
    match made {
        Some(made) => copied(alloc, made),
        None => code_page(alloc, params.coding, page),
    }
}
