//! What a command runs in: the system, how its messages are shown, and what is noted for the words that explain its fault.

ghost use Rattle.faults.specs.Faults.{IsOutside};
ghost use Rattle.faults.specs.declared.fault.ToolFault.TheVariants.{No};
ghost use Rattle.command_files.specs.Told.{IsCallable, IsFirstNotCallable, is_named_in, part_of, step_words};
ghost use Rattle.std.specs.Prelude.{◌≡◌, ◌≢◌, ◌⊎◌, ◌∷◌, ◌++◌, [], All, IfErr, MatchOption, None, OnOk, Some, option_map, true};

use crate::notices::is_explained;
use crate::streams::Streams;
use faults::{NO_MEMORY, ToolFault};
use page_code::RefusedCode;
use page_files::PageForm;
use raster::Page;
use signals::PageWidth;
use std::alloc::{AllocError, Global};
use std::io;
use std::io::ErrorKind;

/// A file of a command.
#[derive(Clone, Copy, Debug, PartialEq, Eq)]
pub enum Part {
    /// What is coded, shown, decoded, listed or sent, or a capture of what a caller sent.
    Input,
    /// The capture of what an answerer sent.
    Answerer,
    /// The script of a call, or the list of the names of files.
    Script,
    /// What the file OUT or that of `--out` gets.
    Output,
    /// The folder of `--bits`, and its files.
    Bits,
    /// The file of `--diagram`.
    Diagram,
    /// The file of `--trace`.
    Trace,
    /// What is printed.
    Printed,
}

/// What is done to store a page in a folder, in this order.
#[derive(Clone, Copy, Debug, PartialEq, Eq)]
pub enum TrialStep {
    /// A part file is made.
    Make,
    /// It is written.
    Write,
    /// It is synced.
    Sync,
    /// It gets another name.
    Name,
    /// The folder is synced.
    SyncFolder,
    /// A file's name is removed.
    Remove,
}

impl TrialStep {
    /// What couldn't be done.
    pub fn words(self) -> &'static str
        ensures { result.now ≡ step_words self }
    {
        match self {
            TrialStep::Make => "no new file can be made in it",
            TrialStep::Write => "a new file in it can't be written",
            TrialStep::Sync => "a new file in it can't be synced",
            TrialStep::Name => "a new file in it can't get its name",
            TrialStep::SyncFolder => "the folder can't be synced",
            TrialStep::Remove => "a file in it can't be removed",
        }
    }
}

/// What the program knows of a fault beside its number.
#[derive(Clone, Copy, Debug, PartialEq, Eq)]
pub enum Cause {
    /// Octets would go to a terminal.
    Terminal,
    /// A file has more octets than this, the most that are read of it.
    TooLong(usize),
    /// A new file of this name is to be made in a folder, and something is there.
    Taken(&'static str),
    /// The first page of a document that no call carries, counted from 1, has this width.
    NotCallable {
        /// The page's number.
        page: usize,
        /// Its width in pixels.
        width: u32,
    },
    /// A document has so many pages, and is to be sent from a later one on.
    FewerPages {
        /// Its pages.
        count: usize,
        /// The number of the first page that is to be sent, from 1.
        from: u32,
    },
    /// Each row of a page ends after this number of pixels, and not after those that were given.
    RowsOf(u32),
    /// Runs of 0 pixels come before the EOL of the refused row of T.4, which `decode --repair` reads.
    EmptyRuns,
    /// The next page of a file of T.6 may begin at this octet, since nothing marks the end of the one before.
    NextPage(usize),
    /// A file of T.6 doesn't end with EOFB, so that the next page may begin anywhere before the refused bit.
    NoEofb,
    /// This step of storing a page fails in a folder.
    FailedTrial(TrialStep),
    /// A name in a list stands for standard input, from which the list itself is read.
    Listed,
}

/// What is noted of a command while it runs.
#[derive(Drop)]
struct Noted {
    /// The file that could not be read or written, and why.
    failed: Option<(Part, ErrorKind)>,
    /// The file whose reading was given up before its end.
    unread: Option<Part>,
    /// All octets of the input, if they are read before anything is done with them; otherwise the first ones.
    octets: Vec<u8>,
    /// All octets of the script.
    script: Vec<u8>,
    /// How far a refused page was read, if that is known.
    refused: Option<RefusedCode>,
    /// What else is known of the fault, if anything is.
    cause: Option<Cause>,
    /// How the page is read, if that isn't given and is known.
    form: Option<PageForm>,
    /// The names of outputs at whose places nothing was at first.
    free: Vec<String>,
}

/// How messages are shown.
#[derive(Clone, Copy, Debug, PartialEq, Eq)]
pub struct Messages {
    /// Whether they are records for programs (`--json`).
    pub json: bool,
    /// Whether faults are explained in words too, and the signals of a call (`--explain`).
    pub explain: bool,
}

/// What a command runs in.
#[derive(Drop)]
pub struct Context<'a> {
    streams: &'a Streams<'a>,
    rt: &'a HostRuntime,
    messages: Messages,
    noted: Noted,
}

impl<'a> Context<'a> {
    /// Returns the context of a command that has read nothing.
    pub fn new(streams: &'a Streams<'a>, messages: Messages) -> Context<'a>
        ensures messages { result.messages ≡ messages }
        ensures failed { result.noted.failed ≡ None }
        ensures unread { result.noted.unread ≡ None }
        ensures octets { result.noted.octets.items ≡ [] }
        ensures script { result.noted.script.items ≡ [] }
        ensures refused { result.noted.refused ≡ None }
        ensures cause { result.noted.cause ≡ None }
        ensures form { result.noted.form ≡ None }
        ensures free { result.noted.free.items ≡ [] }
    {
        let rt = streams.rt();
        Context {
            streams,
            rt,
            messages,
            noted: Noted {
                failed: None,
                unread: None,
                octets: Vec::new(rt.alloc()),
                script: Vec::new(rt.alloc()),
                refused: None,
                cause: None,
                form: None,
                free: Vec::new(rt.alloc()),
            },
        }
    }

    /// Standard output and standard error.
    pub fn streams(&self) -> &'a Streams<'a>
        ensures { result ≡ self.now.streams }
    {
        self.streams
    }

    /// The system.
    pub fn rt(&self) -> &'a HostRuntime
        ensures { result ≡ self.now.rt }
    {
        self.rt
    }

    /// The allocator.
    pub fn alloc(&self) -> Global {
        self.rt.alloc()
    }

    /// Whether messages are records for programs.
    pub fn is_json(&self) -> bool
        ensures { result ≡ self.now.messages.json }
    {
        self.messages.json
    }

    /// Whether signals are explained in words, as is asked for.
    pub fn is_explained(&self) -> bool
        ensures { result ≡ self.now.messages.explain }
    {
        self.messages.explain
    }

    /// Whether faults are explained in words: if asked for, on a terminal, and if the environment says so.
    pub fn explains(&self) -> bool
        ensures { self.now.messages.explain ≡ true → result ≡ true }
    {
        self.messages.explain || is_explained(self.rt)
    }

    /// Notes why a file could not be read or written.
    pub fn blame(&mut self, part: Part, kind: ErrorKind)
        ensures { self.new ≡ record self.old { noted = record self.old.noted { failed = Some (part, kind) } } }
    {
        self.noted.failed = Some((part, kind));
    }

    /// Notes why a file could not be read or written, if it couldn't. Errors: `Io` (8), or `NoMemory` (9) if memory was refused.
    pub fn checked<T: Drop>(&mut self, done: io::Result<T>, part: Part) -> Result<T, ToolFault>
        ensures fault { IfErr result IsOutside }
    {
        if let Err(error) = &done {
            self.blame(part, error.kind());
        }
        Ok(done?)
    }

    /// Notes what is known of a fault beside its number.
    pub fn note_cause(&mut self, cause: Cause)
        ensures { self.new ≡ record self.old { noted = record self.old.noted { cause = Some cause } } }
    {
        self.noted.cause = Some(cause);
    }

    /// Notes how the page is read, which isn't given.
    pub fn note_form(&mut self, form: PageForm)
        ensures { self.new
            ≡ record self.old { noted = record self.old.noted { form = Some form } } }
    {
        self.noted.form = Some(form);
    }

    /// Notes that nothing is at the place of an output of this name. Errors: memory was refused.
    pub fn note_free(&mut self, name: String) -> Result<(), AllocError>
        ensures { OnOk result (self.new.noted.free.items ≡ self.old.noted.free.items ++ name ∷ []) }
    {
        if self.noted.free.push(name).is_err() {
            return Err(AllocError);
        }
        Ok(())
    }

    /// Returns whether nothing was at the place of an output of this name at first.
    pub fn was_free(&self, name: &str) -> bool
        ensures { result ≡ is_named_in name.now self.now.noted.free.items }
    {
        is_named_in(name, self.noted.free.as_slice())
    }

    /// Notes that a file's reading was given up before its end.
    pub fn note_unread(&mut self, part: Part)
        ensures { self.new ≡ record self.old { noted = record self.old.noted { unread = Some part } } }
    {
        self.noted.unread = Some(part);
    }

    /// Keeps octets of the input: all, or the first ones.
    pub fn keep_octets(&mut self, read: Vec<u8>)
        ensures { self.new ≡ record self.old { noted = record self.old.noted { octets = read } } }
    {
        self.noted.octets = read;
    }

    /// Keeps the octets of the script.
    pub fn keep_script(&mut self, read: Vec<u8>)
        ensures { self.new ≡ record self.old { noted = record self.old.noted { script = read } } }
    {
        self.noted.script = read;
    }

    /// Keeps all octets of the input, and how far a refused page in them was read, if that is known.
    pub fn keep_read(&mut self, read: Vec<u8>, known: Option<RefusedCode>)
        ensures { self.new ≡ record self.old { noted = record self.old.noted { octets = read; refused = known } } }
    {
        self.noted.octets = read;
        self.noted.refused = known;
    }

    /// The octets of the input that are kept.
    pub fn octets(&self) -> &[u8]
        ensures { result.now ≡ self.now.noted.octets.items }
    {
        self.noted.octets.as_slice()
    }

    /// The octets of the script.
    pub fn script(&self) -> &[u8]
        ensures { result.now ≡ self.now.noted.script.items }
    {
        self.noted.script.as_slice()
    }

    /// How far a refused page was read, if that is known.
    pub fn refused(&self) -> Option<RefusedCode>
        ensures { result ≡ self.now.noted.refused }
    {
        self.noted.refused
    }

    /// What is known of the fault beside its number, if anything is.
    pub fn cause(&self) -> Option<Cause>
        ensures { result ≡ self.now.noted.cause }
    {
        self.noted.cause
    }

    /// How the page is read, if that isn't given and is known.
    pub fn form(&self) -> Option<PageForm>
        ensures { result ≡ self.now.noted.form }
    {
        self.noted.form
    }

    /// Why a file could not be read or written, if that is known.
    pub fn reason(&self) -> Option<ErrorKind>
        ensures { result ≡ option_map (λ failed. failed.1) self.now.noted.failed }
    {
        self.noted.failed.map(|failed| failed.1)
    }

    /// Which file a fault is about.
    pub fn part_of(&self, fault: ToolFault) -> Part
        ensures { result ≡ part_of fault self.now.noted.failed self.now.noted.unread }
    {
        match (fault, self.noted.failed) {
            (ToolFault::AtLine(_), _) => Part::Script,
            (ToolFault::No(8 | 32), Some((part, _kind))) => part,
            (ToolFault::No(9), _) => self.noted.unread.unwrap_or(Part::Input),
            _ => Part::Input,
        }
    }

    /// Returns the fault of a command that writes into memory: `NoMemory` (9) in place of `Io` (8) if no file failed.
    pub fn in_memory(&self, fault: ToolFault) -> ToolFault
        ensures same { (result ≡ fault) ⊎ IsOutside result }
        ensures other { fault ≢ No 8 → result ≡ fault }
        ensures refused { self.now.noted.failed ≡ None → result ≢ No 8 }
    {
        match (fault, self.noted.failed) {
            (ToolFault::No(8), None) => NO_MEMORY,
            _ => fault,
        }
    }
}

/// Returns whether a name is one of these.
fn is_named_in(name: &str, names: &[String]) -> bool
    ensures { result ≡ is_named_in name.now names.now }
{
    for one in names {
        if one.as_str() == name {
            return true;
        }
    }
    false
}

/// Returns the first of these pages that a call can't carry, with its number, from 1, after those that come before them; None if there is
/// none.
pub fn first_not_callable(pages: &[Page], before: usize) -> Option<Cause>
    ensures { MatchOption result (All IsCallable pages.now) (IsFirstNotCallable pages.now before) }
{
    let mut left = pages;
    let mut number = before;
    while let [page, more @ ..] = left {
        number = number.saturating_add(1);
        let width = page.width();
        if PageWidth::of_pixels(width).is_none() {
            return Some(Cause::NotCallable {
                page: number,
                width,
            });
        }
        left = more;
    }
    None
}
