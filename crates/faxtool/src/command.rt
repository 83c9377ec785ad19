//! The commands of the program.

use commands::call::ScriptCommand;
use commands::call::drives::DriveCommand;
use commands::code::CodeCommand;
use commands::decode::DecodeCommand;
use commands::decode::each::EachCommand;
use commands::frames::FramesCommand;
use commands::frames::two_captures::CapturesCommand;
use commands::identify::IdentifyCommand;
use commands::identify::several::SeveralCommand;
use commands::judge::JudgeCommand;
use commands::show::ShowCommand;
use commands::version::VersionCommand;
use station_commands::{AnswerCommand, DialCommand};

/// What the program is asked to do.
#[derive(Debug, PartialEq, Eq, Drop)]
pub enum Command {
    /// Writes the code of an image into a file.
    Code(CodeCommand),
    /// Prints the first page in a file as text.
    Show(ShowCommand),
    /// Writes a page in a file as an image.
    Decode(DecodeCommand),
    /// Writes every page of many files as images.
    Each(EachCommand),
    /// Lists the frames in a file of bits.
    Frames(FramesCommand),
    /// Draws the frames in two files of bits, one of each station of a call.
    Captures(CapturesCommand),
    /// Prints as which format a file begins, and in which ways it reads as a page.
    Identify(IdentifyCommand),
    /// Prints a line for each of several files, of what it is.
    Several(SeveralCommand),
    /// Runs a call by a script, and prints its transcript.
    Call(ScriptCommand),
    /// Runs a call over a bad line and prints its transcript; or many, and prints a line for each and a table.
    Drive(DriveCommand),
    /// Prints each frame of a call's log that breaks a rule.
    Judge(JudgeCommand),
    /// Runs an answerer by lines of text.
    Answer(AnswerCommand),
    /// Runs a caller by lines of text.
    Dial(DialCommand),
    /// Prints the program's version, or the kit that it is proved with.
    Version(VersionCommand),
}

impl Command {
    /// Returns the names of the files of a command for several; no name for another command.
    pub fn several_files(&self) -> &[String] {
        match self {
            Command::Each(command) => command.files.as_slice(),
            Command::Several(command) => command.files.as_slice(),
            Command::Code(_)
            | Command::Show(_)
            | Command::Decode(_)
            | Command::Frames(_)
            | Command::Captures(_)
            | Command::Identify(_)
            | Command::Call(_)
            | Command::Drive(_)
            | Command::Judge(_)
            | Command::Answer(_)
            | Command::Dial(_)
            | Command::Version(_) => &[],
        }
    }
}
