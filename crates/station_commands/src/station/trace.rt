//! What a station heard and said, as text with its time.

ghost use Rattle.faults.specs.Faults.{IsOutside};
ghost use Rattle.station_commands.specs.CallNotes.{frame_read, joined_run, run_line, run_with, said_word};
ghost use Rattle.signals.specs.Signals.{plain_read};
ghost use Rattle.std.specs.Io.KnownBytes.{Appends};
ghost use Rattle.std.specs.Prelude.{◌≡◌, ◌||◌, IfErr, None, OnOk, cond, nat_eq, ◌+◌};

use crate::station::records::write_lost;
use captures::{NamedText, write_traced, write_traced_check};
use command_files::context::{Context, Part};
use command_files::files::limited::SharedFile;
use command_files::files::output::Rights;
use command_files::notices::notice_as;
use command_files::streams::Streams;
use conversations::Heard;
use faults::ToolFault;
use signals::{Signal, SignalFault};
use stations::Carrier;
use std::alloc::Global;
use std::fs::{File, OpenOptions, Permissions};
use std::io;
use std::io::{BufWriter, ErrorKind, Write};
use std::os::unix::fs::{OpenOptionsExt, PermissionsExt};

/// More octets than a line of a trace has: the frame with the most words, NSF, has 300 octets. Each line is written by one call, so that
/// stations that share a trace don't write into each other's lines.
const LONGEST_LINE: usize = 8192;

/// The trace of a station, if one is asked for. One that can't be written any more says so once and ends, and the call goes on.
#[derive(Drop)]
pub(crate) struct Trace<'a> {
    streams: &'a Streams<'a>,
    file: Option<TraceFile>,
}

/// The file of a trace, and the frames of a block that follow each other and have no line yet.
#[derive(Drop)]
struct TraceFile {
    alloc: Global,
    records: bool,
    frames: bool,
    writer: BufWriter<SharedFile>,
    run: Option<FrameRun>,
}

impl<'a> Trace<'a> {
    /// Writes a content that is heard at a time and says this, if there is a trace.
    pub(crate) fn heard(&mut self, at: u64, content: &[u8], said: Result<Signal<'_>, SignalFault>) {
        let written = self.write_frame(at, false, content, said);
        self.end_after(written);
    }

    /// Writes a content that is said in answer to the line of this time, and its signal, if there is a trace.
    pub(crate) fn said(&mut self, at: u64, content: &[u8], signal: Signal<'_>) {
        let written = self.write_frame(at, true, content, Ok(signal));
        self.end_after(written);
    }

    /// Writes what is left of a line of this time that the station hears so, if there is a trace.
    pub(crate) fn end_line(&mut self, at: u64, heard: Heard) {
        let written = self.write_end(at, false, matches!(heard, Heard::Check));
        self.end_after(written);
    }

    /// Writes what is left of a burst by this carrier, in answer to the line of this time, if there is a trace.
    pub(crate) fn end_burst(&mut self, at: u64, carrier: Carrier) {
        let written = self.write_end(at, true, matches!(carrier, Carrier::Training(_)));
        self.end_after(written);
    }

    /// Writes how many lines are lost since memory was refused, if there is a trace.
    pub(crate) fn lost(&mut self, at: u64, lines: u64) {
        let written = self.write_lost(at, lines);
        self.end_after(written);
    }

    /// The trace that goes to a file, after what is there; or none. A new file has these rights. It has a line for each frame of a block, or
    /// one for all that follow each other. Errors: `Io` (8) if the file can't be opened, and that is noted; `NoMemory` (9).
    pub(crate) fn open(
        context: &mut Context<'a>,
        name: Option<&str>,
        rights: Rights,
        frames: bool,
    ) -> Result<Trace<'a>, ToolFault>
        ensures { IfErr result IsOutside }
    {
        let Some(name) = name else {
            return Ok(Trace {
                streams: context.streams(),
                file: None,
            });
        };
        let opened = open_after(context.rt(), name, rights);
        let file = context.checked(opened, Part::Trace)?;
        let writer = SharedFile::new(context.rt(), file);
        let alloc = context.alloc();
        let file = TraceFile {
            alloc,
            records: context.is_json(),
            frames,
            writer: BufWriter::with_capacity(alloc, LONGEST_LINE, writer)?,
            run: None,
        };
        Ok(Trace {
            streams: context.streams(),
            file: Some(file),
        })
    }

    /// Ends the trace if what was to be written of it wasn't, and says so.
    fn end_after(&mut self, written: Result<(), ToolFault>)
        ensures stays { OnOk written (self.new.file ≡ self.old.file) }
        ensures ends { IfErr written (λ fault. self.new.file ≡ None) }
    {
        if written.is_ok() {
            return;
        }
        let records = self.file.as_ref().is_some_and(|file| file.records);
        self.file = None;
        let words = "the trace can't be written any more and ends here; the call goes on";
        let _told = notice_as(self.streams, records, words);
    }

    /// Writes the line of a content that says this, unless one line has it with the frames beside it. Errors: `Io` (8) from the file,
    /// `NoMemory` (9).
    fn write_frame(
        &mut self,
        at: u64,
        said: bool,
        content: &[u8],
        signal: Result<Signal<'_>, SignalFault>,
    ) -> Result<(), ToolFault>
        ensures { IfErr result IsOutside }
    {
        let Some(file) = &mut self.file else {
            return Ok(());
        };
        let lines = file.lines_at(at, said);
        file.write_content(lines, content, lines.frame_of(signal))
    }

    /// Writes the line of a training check, or of frames that follow each other, where a line or a burst ends. Errors: `Io` (8) from the file,
    /// `NoMemory` (9).
    fn write_end(&mut self, at: u64, said: bool, checks: bool) -> Result<(), ToolFault>
        ensures { IfErr result IsOutside }
    {
        let Some(file) = &mut self.file else {
            return Ok(());
        };
        let lines = file.lines_at(at, said);
        if checks {
            lines.write_check(&mut file.writer)?;
        }
        file.end_run(lines)
    }

    /// Writes how many lines are lost. Errors: `Io` (8) from the file.
    fn write_lost(&mut self, at: u64, lines: u64) -> Result<(), ToolFault>
        ensures { IfErr result IsOutside }
    {
        let Some(file) = &mut self.file else {
            return Ok(());
        };
        write_lost(file.records, at, lines, &mut file.writer)?;
        file.writer.flush()?;
        Ok(())
    }
}

/// Opens a file to be written after what is there. A new one has these rights before its first octet. Errors: the system's.
fn open_after(rt: &HostRuntime, name: &str, rights: Rights) -> io::Result<File> {
    match appending(rights).create_new(true).open(rt, name) {
        Ok(file) => {
            if let Rights::Mode(mode) = rights {
                file.set_permissions(Permissions::from_mode(mode))?;
            }
            Ok(file)
        }
        // it is there, or is a link
        Err(error) if error.kind() == ErrorKind::AlreadyExists => {
            appending(rights).create(true).open(rt, name)
        }
        Err(error) => Err(error),
    }
}

/// How a file of these rights is opened to be written after what is there.
fn appending(rights: Rights) -> OpenOptions {
    let mut options = OpenOptions::new();
    options.append(true);
    match rights {
        Rights::Umask => {}
        Rights::Private | Rights::Mode(_) => {
            options.mode(0o600);
        }
    }
    options
}

impl TraceFile {
    /// The lines of what is said or heard at a time.
    fn lines_at(&self, at: u64, said: bool) -> TraceLines
        ensures { result ≡ record { alloc = self.now.alloc; records = self.now.records; frames = self.now.frames; at = at; said = said } }
    {
        TraceLines {
            alloc: self.alloc,
            records: self.records,
            frames: self.frames,
            at,
            said,
        }
    }

    /// Writes the line of a content, or keeps it if it is a frame of a block that may go on. Errors: `Io` (8) from the file, `NoMemory` (9).
    fn write_content(
        &mut self,
        lines: TraceLines,
        content: &[u8],
        frame: Option<FrameRun>,
    ) -> Result<(), ToolFault>
        ensures run { OnOk result
            (self.new.run ≡ run_with (joined_run self.old.run frame) frame) }
        ensures fault { IfErr result IsOutside }
    {
        if let Some(more) = joined_run(self.run, frame) {
            self.run = Some(more);
            return Ok(());
        }
        self.end_run(lines)?;
        self.run = frame;
        if frame.is_none() {
            lines.write_content(content, &mut self.writer)?;
            self.writer.flush()?;
        }
        Ok(())
    }

    /// Writes the line of the frames that have none yet, if there are some. Errors: `Io` (8) from the file.
    fn end_run(&mut self, lines: TraceLines) -> Result<(), ToolFault>
        ensures run { OnOk result (self.new.run ≡ None) }
        ensures fault { IfErr result IsOutside }
    {
        lines.write_run(self.run, &mut self.writer)?;
        self.run = None;
        self.writer.flush()?;
        Ok(())
    }
}

/// The lines of what is said or heard at a time, as text or as records.
#[derive(Clone, Copy)]
struct TraceLines {
    alloc: Global,
    records: bool,
    frames: bool,
    at: u64,
    said: bool,
}

/// Frames of a block whose numbers follow each other, and the octets of data in the last one.
#[derive(Clone, Copy, PartialEq, Eq)]
struct FrameRun {
    first: u8,
    last: u8,
    octets: usize,
}

/// Frames that follow each other, with one more if it is the next; None if it isn't.
fn joined_run(run: Option<FrameRun>, frame: Option<FrameRun>) -> Option<FrameRun>
    ensures { result ≡ joined_run run frame }
{
    match (run, frame) {
        (Some(before), Some(frame)) if before.is_before(frame) => Some(before.with(frame)),
        _ => None,
    }
}

impl FrameRun {
    /// Whether a frame has the number after that of the last one.
    fn is_before(self, frame: FrameRun) -> bool
        ensures { result ≡ nat_eq (self.last + 1) frame.first }
    {
        u16::from(self.last) + 1 == u16::from(frame.first)
    }

    /// The frames with a further one.
    fn with(self, frame: FrameRun) -> FrameRun
        ensures { result ≡ record { first = self.first; last = frame.last; octets = frame.octets } }
    {
        FrameRun {
            first: self.first,
            ..frame
        }
    }
}

impl TraceLines {
    /// The word of what is said or heard.
    fn word(self) -> &'static str
        ensures { result.now ≡ said_word self.said }
    {
        if self.said { "said" } else { "heard" }
    }

    /// The frame of a block that a content is which says this, where such a one has no line of its own.
    fn frame_of(self, said: Result<Signal<'_>, SignalFault>) -> Option<FrameRun>
        ensures { result ≡ cond (self.records || self.frames) None (frame_read (plain_read said.entry)) }
    {
        if self.records || self.frames {
            return None;
        }
        match said {
            Ok(Signal::Fcd { number, octets }) => Some(FrameRun {
                first: number,
                last: number,
                octets: octets.len(),
            }),
            _ => None,
        }
    }

    /// Writes the line of frames that follow each other: `FCD 0..255`; of one alone it is that of its content. Errors: `Io` (8) from the
    /// writer.
    fn write_run<W: Write>(self, run: Option<FrameRun>, writer: &mut W) -> Result<(), ToolFault>
        ensures line { OnOk result (Appends (W.contents writer.old) (W.contents writer.new) (run_line self.at self.said run)) }
        ensures fault { IfErr result IsOutside }
    {
        let Some(
            FrameRun {
                first,
                last,
                octets,
            },
        ) = run
        else {
            return Ok(());
        };
        let (at, word) = (self.at, self.word());
        if first == last {
            writeln!(writer, "{at} {word} FCD {first} {octets}")?;
        } else {
            writeln!(writer, "{at} {word} FCD {first}..{last}")?;
        }
        Ok(())
    }

    /// Writes the line of a content: the time, a word, and what the content says. Errors: `Io` (8) from the writer, `NoMemory` (9).
    fn write_content<W: Write>(self, content: &[u8], writer: &mut W) -> Result<(), ToolFault>
        ensures { IfErr result IsOutside }
    {
        if self.records {
            return write_traced(self.alloc, self.at, self.said, content, writer);
        }
        writeln!(writer, "{} {} {}", self.at, self.word(), NamedText(content))?;
        Ok(())
    }

    /// Writes the line of a training check. Errors: `Io` (8) from the writer, `NoMemory` (9).
    fn write_check<W: Write>(self, writer: &mut W) -> Result<(), ToolFault>
        ensures { IfErr result IsOutside }
    {
        if self.records {
            return write_traced_check(self.alloc, self.at, self.said, writer);
        }
        writeln!(writer, "{} {} TRAINING", self.at, self.word())?;
        Ok(())
    }
}
