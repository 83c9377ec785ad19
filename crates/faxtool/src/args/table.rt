//! The program's commands with their options and files, as a table.
ghost use Rattle.clap.specs.Words.{App};
ghost use Rattle.faxtool.specs.Jobs.{BeginsFaxtool, HasPageCommands, IsFaxtool, empty_app};
ghost use Rattle.faxtool.specs.Table.{with_commands};

use clap::ArgAction;
use clap::builder::ValueParser;

/// An option of a command, or the name of a file.
#[derive(Clone, Copy)]
pub(crate) struct Argument<'a> {
    /// What its value is read by; of an option it is the name too.
    pub(crate) id: &'a str,
    pub(crate) is_option: bool,
    /// What the help calls its value, if it has one.
    pub(crate) shown: &'a [&'a str],
    pub(crate) action: ArgAction,
    pub(crate) required: bool,
    /// The value where it isn't given, if there is one.
    pub(crate) defaults: &'a [&'a str],
    /// What its value has to be, if not any text.
    pub(crate) parser: Option<ValueParser<'a>>,
    pub(crate) help: &'a str,
}

/// A command with its arguments.
#[derive(Clone, Copy)]
pub(crate) struct Entry<'a> {
    pub(crate) name: &'a str,
    pub(crate) about: &'a str,
    pub(crate) arguments: &'a [Argument<'a>],
}

/// An option that has no value.
const FLAG: Argument<'static> = Argument {
    id: "",
    is_option: true,
    shown: &[],
    action: ArgAction::SetTrue,
    required: false,
    defaults: &[],
    parser: None,
    help: "",
};

/// An option with the name of a file.
const FILE_OPTION: Argument<'static> = Argument {
    shown: &["FILE"],
    action: ArgAction::Set,
    ..FLAG
};

/// An option that is one of several names.
const CHOICE: Argument<'static> = Argument {
    shown: &["NAME"],
    ..FILE_OPTION
};

/// The name of a file, which is required.
const FILE: Argument<'static> = Argument {
    is_option: false,
    required: true,
    ..FILE_OPTION
};

/// The codes: as options name them, and as the texts of frames do.
const CODINGS: Option<ValueParser<'static>> = Some(ValueParser::Names(&["mh", "mmr", "t4", "t6"]));

const CODE: Argument<'static> = Argument {
    id: "code",
    shown: &["CODE"],
    required: true,
    parser: CODINGS,
    help: "The code of the page: mh, or t4, codes each row by its runs alone, mmr, or t6, after the row above",
    ..FILE_OPTION
};

const WIDTH: Argument<'static> = Argument {
    id: "width",
    shown: &["N"],
    required: true,
    parser: Some(ValueParser::Signed(1, 2432)),
    help: "The width of the page in pixels, 1 to 2432",
    ..FILE_OPTION
};

const ORDER: Argument<'static> = Argument {
    id: "order",
    shown: &["ORDER"],
    defaults: &["msb"],
    parser: Some(ValueParser::Names(&["msb", "lsb"])),
    help: "Which bit of an octet of the code comes first, the most or the least significant",
    ..FILE_OPTION
};

/// The order of the bits that a modem hands over.
const LINE_ORDER: Argument<'static> = Argument {
    defaults: &["lsb"],
    help: "Which bit of an octet comes first on the line, the most or the least significant",
    ..ORDER
};

/// The folder that the pages of many files are written to.
const EACH: Argument<'static> = Argument {
    id: "each",
    shown: &["DIR"],
    help: "The folder under which every page of each file is written, as NAME-0001.pbm and so on; without --code as identify says it",
    ..FILE_OPTION
};

const CODED_PAGE: Argument<'static> = Argument {
    id: "file",
    help: "The file of the coded page; - is standard input",
    ..FILE
};

const EXPLAIN: Argument<'static> = Argument {
    id: "explain",
    help: "Explains a fault in words too, on a second line, as on a terminal or with FAXTOOL_EXPLAIN=1 in the environment",
    ..FLAG
};

const CODE_ARGUMENTS: &[Argument<'static>] = &[
    CODE,
    ORDER,
    Argument {
        id: "in",
        shown: &["IN"],
        help: "The file of the image, a PBM; - is standard input",
        ..FILE
    },
    Argument {
        id: "out",
        shown: &["OUT"],
        help: "The file that the code is written to; - is standard output",
        ..FILE
    },
    EXPLAIN,
];

const SHOW_ARGUMENTS: &[Argument<'static>] = &[CODE, WIDTH, ORDER, CODED_PAGE, EXPLAIN];

const DECODE_ARGUMENTS: &[Argument<'static>] = &[
    Argument {
        required: false,
        ..CODE
    },
    Argument {
        required: false,
        help: "The width of the page in pixels, 1 to 2432; without --code the one that is taken where identify names several",
        ..WIDTH
    },
    ORDER,
    Argument {
        id: "fine",
        help: "The page has 7.7 lines a millimetre in place of 3.85",
        ..FLAG
    },
    Argument {
        id: "salvage",
        help: "Writes the whole rows before the bit where the page can't be read, if there is one",
        ..FLAG
    },
    Argument {
        id: "repair",
        help: "mh: gives each row that can't be read as the one before it, and names it; mmr: takes a page without its EOFB",
        ..FLAG
    },
    Argument {
        id: "whole",
        help: "Ends with status 1 where the page ends without its RTC, or with --repair without its EOFB",
        ..FLAG
    },
    Argument {
        id: "verbose",
        help: "Shows the page's rows, the bits of its code and the octets after it",
        ..FLAG
    },
    Argument {
        id: "json",
        help: "Writes each line on standard error, and with --each that of a file, as an object of JSON, for programs",
        ..FLAG
    },
    Argument {
        id: "page",
        shown: &["N"],
        parser: Some(ValueParser::Signed(1, 4_294_967_295)),
        help: "Decodes the Nth page of a file with several, one after another, and not the first",
        ..FILE_OPTION
    },
    EACH,
    Argument {
        id: "from",
        shown: &["LIST"],
        help: "Reads the names of more files, one a line; - is standard input (with --each)",
        ..FILE_OPTION
    },
    Argument {
        id: "null",
        help: "An octet of 0 ends each name of LIST, as find -print0 writes them, and not a line's end",
        ..FLAG
    },
    Argument {
        id: "resume",
        help: "An image that is there already, with the same octets, counts as written (with --each)",
        ..FLAG
    },
    Argument {
        id: "most-pages",
        shown: &["N"],
        parser: Some(ValueParser::Signed(1, 4_294_967_295)),
        help: "The most pages of a file that are written, 10000 if not said (with --each)",
        ..FILE_OPTION
    },
    Argument {
        id: "most-octets",
        shown: &["N"],
        parser: Some(ValueParser::Signed(1, 134_217_728)),
        help: "The most octets of a file, 134217728 if not said; one with more is not decoded (with --each)",
        ..FILE_OPTION
    },
    Argument {
        required: false,
        ..CODED_PAGE
    },
    Argument {
        id: "out",
        shown: &["OUT"],
        action: ArgAction::Append,
        required: false,
        help: "The file that the image is written to; - is standard output; with --each the further files of coded pages",
        ..FILE
    },
    EXPLAIN,
];

const FRAMES_ARGUMENTS: &[Argument<'static>] = &[
    Argument {
        id: "data",
        shown: &["N"],
        parser: Some(ValueParser::Signed(0, 300)),
        help: "Shows at most N octets of a content, and `..` where it has more",
        ..FILE_OPTION
    },
    LINE_ORDER,
    Argument {
        id: "pages",
        help: "The folder that the pages in the frames are written to, as page-1.pbm and so on",
        ..FILE_OPTION
    },
    Argument {
        id: "salvage",
        help: "Writes the whole rows before the first gap of a page that isn't whole too, if there is one (with --pages)",
        ..FLAG
    },
    Argument {
        id: "json",
        help: "Writes each line as an object of JSON, for programs",
        ..FLAG
    },
    Argument {
        id: "diagram",
        shown: &["OUT"],
        help: "The file that the frames of both stations are drawn in, as an SVG (with --caller and --answerer)",
        ..FILE_OPTION
    },
    Argument {
        id: "caller",
        help: "The file of the bits that the caller sent; - is standard input (with --diagram)",
        ..FILE_OPTION
    },
    Argument {
        id: "answerer",
        help: "The file of the bits that the answerer sent; - is standard input (with --diagram)",
        ..FILE_OPTION
    },
    Argument {
        id: "file",
        required: false,
        help: "The file of the bits; - is standard input",
        ..FILE
    },
    Argument {
        help: "Says what each DIS, DCS, PPS and PPR says in words, on a line after its own; and explains a fault in words too",
        ..EXPLAIN
    },
];

const IDENTIFY_ARGUMENTS: &[Argument<'static>] = &[
    Argument {
        id: "json",
        help: "Prints a line for each file, as an object of JSON, for programs",
        ..FLAG
    },
    Argument {
        id: "file",
        action: ArgAction::Append,
        help: "The file that is tried; - is standard input; of several files one line each is printed",
        ..FILE
    },
    EXPLAIN,
];

const CALL_ARGUMENTS: &[Argument<'static>] = &[
    Argument {
        id: "script",
        help: "The file of the script: what happens on the line",
        ..FILE_OPTION
    },
    Argument {
        id: "lose",
        shown: &["RATE"],
        help: "Runs the call with no script: each item is lost at this rate, as 5% or 1/20",
        ..FILE_OPTION
    },
    Argument {
        id: "spoil",
        shown: &["RATE"],
        help: "At this rate a training check is spoiled too, and another item lost (with --lose)",
        ..FILE_OPTION
    },
    Argument {
        id: "busy",
        shown: &["RATE"],
        help: "At this rate the answerer is busy when a PPS or an RR comes to it (with --lose)",
        ..FILE_OPTION
    },
    Argument {
        id: "seed",
        shown: &["N"],
        parser: Some(ValueParser::Signed(0, 4_294_967_295)),
        help: "The seed of the generator that draws the losses (with --lose, and needed there)",
        ..FILE_OPTION
    },
    Argument {
        id: "calls",
        shown: &["K"],
        parser: Some(ValueParser::Signed(1, 1_000_000)),
        help: "How many DIS are sent in one wait, 3 if not said (with --lose)",
        ..FILE_OPTION
    },
    Argument {
        id: "times",
        shown: &["M"],
        parser: Some(ValueParser::Signed(1, 4_294_967_295)),
        help: "Runs M calls, of the numbers from 0, and prints a line for each and a table (with --lose)",
        ..FILE_OPTION
    },
    Argument {
        id: "code",
        defaults: &["mmr"],
        parser: CODINGS,
        help: "The code of the pages",
        ..CHOICE
    },
    Argument {
        id: "frame",
        defaults: &["256"],
        parser: Some(ValueParser::Names(&["256", "64"])),
        help: "The octets of data in a frame",
        ..CHOICE
    },
    Argument {
        id: "modems",
        defaults: &["v17"],
        parser: Some(ValueParser::Names(&["v17", "v27v29", "v29", "v27", "fallback"])),
        help: "The modems of both stations",
        ..CHOICE
    },
    Argument {
        id: "fine",
        help: "Sends 7.7 lines a millimetre in place of 3.85",
        ..FLAG
    },
    Argument {
        id: "out",
        help: "The file that the stored pages are written to, as PBM",
        ..FILE_OPTION
    },
    Argument {
        id: "expect",
        shown: &["END"],
        parser: Some(ValueParser::Names(&["normal"])),
        help: "Ends with status 1 where the call didn't end so, as normal, for both stations (not with --times)",
        ..FILE_OPTION
    },
    Argument {
        id: "bits",
        shown: &["DIR"],
        help: "The folder that what is sent on the line is written to, as to-answerer.bits and to-caller.bits",
        ..FILE_OPTION
    },
    Argument {
        id: "diagram",
        shown: &["OUT"],
        help: "The file that the call is drawn in, as an SVG",
        ..FILE_OPTION
    },
    Argument {
        id: "json",
        help: "Writes each line as an object of JSON, for programs (not with --times)",
        ..FLAG
    },
    Argument {
        id: "in",
        shown: &["IN"],
        help: "The file of the document, a PBM; - is standard input",
        ..FILE
    },
    Argument {
        help: "Says what each DIS, DCS, PPS and PPR says in words, on a line after its own; and explains a fault in words too",
        ..EXPLAIN
    },
];

/// How long a wait runs, in milliseconds.
const MILLIS: Argument<'static> = Argument {
    shown: &["MS"],
    parser: Some(ValueParser::Signed(1, 3_600_000)),
    ..FILE_OPTION
};

/// A limit of a call.
const MOST: Argument<'static> = Argument {
    parser: Some(ValueParser::Signed(1, 4_294_967_295)),
    ..FILE_OPTION
};

const STATION_ARGUMENTS: &[Argument<'static>] = &[
    Argument {
        id: "answer",
        help: "The station answers, and stores pages (with --out)",
        ..FLAG
    },
    Argument {
        id: "call",
        help: "The station calls, and sends the document IN",
        ..FLAG
    },
    Argument {
        id: "out",
        shown: &["DIR"],
        help: "The folder that the stored pages are written to, as page-1.pbm and so on (with --answer, and needed there)",
        ..FILE_OPTION
    },
    Argument {
        id: "code",
        defaults: &["mmr"],
        parser: CODINGS,
        help: "The code of the pages; an answerer takes mh alone, or both with mmr",
        ..CHOICE
    },
    Argument {
        id: "modems",
        defaults: &["v17"],
        parser: Some(ValueParser::Names(&["v17", "v27v29", "v29", "v27", "fallback"])),
        help: "The modems of the station",
        ..CHOICE
    },
    Argument {
        id: "standard",
        help: "Takes no fine lines, of 7.7 lines a millimetre (with --answer)",
        ..FLAG
    },
    Argument {
        id: "widest",
        shown: &["N"],
        parser: Some(ValueParser::Names(&["1728", "2048", "2432"])),
        help: "The widest page that is taken in pixels, 1728, 2048 or 2432, which it is if not said (with --answer)",
        ..FILE_OPTION
    },
    Argument {
        id: "limit",
        shown: &["PAGES"],
        parser: Some(ValueParser::Signed(1, 1000)),
        help: "How many pages wait in memory at most, 1 to 1000, 2 if not said (with --answer)",
        ..FILE_OPTION
    },
    Argument {
        id: "mode",
        shown: &["MODE"],
        help: "The mode of the pages' files in octal, as 0640, whatever the umask is; 0600 less the umask if not said (with --answer)",
        ..FILE_OPTION
    },
    Argument {
        id: "most-pages",
        shown: &["N"],
        help: "The most pages that are stored; a further one is dropped, and the call stopped in its place (with --answer)",
        ..MOST
    },
    Argument {
        id: "most-octets",
        shown: &["N"],
        help: "The most octets of the pages' files; a page that would exceed them is dropped, and the call stopped (with --answer)",
        ..MOST
    },
    Argument {
        id: "most-seconds",
        shown: &["S"],
        help: "The seconds after which the call is stopped, 14400 if not said, 0 for no limit; a page under way is dropped",
        parser: Some(ValueParser::Signed(0, 4_294_967_295)),
        ..FILE_OPTION
    },
    Argument {
        id: "refuse",
        help: "Stops the call at the second DCS that isn't allowed, as without error correction; so it is if not said (with --answer)",
        ..FLAG
    },
    Argument {
        id: "no-refuse",
        help: "Answers no such DCS, and waits on (with --answer)",
        ..FLAG
    },
    Argument {
        id: "hold",
        help: "Hands each page over by a line `page FILE`, and confirms it once a line `kept T FILE` came (with --answer)",
        ..FLAG
    },
    Argument {
        id: "frame",
        shown: &["N"],
        parser: Some(ValueParser::Names(&["256", "64"])),
        help: "The octets of data in a frame, 256 or 64, 256 if not said (with --call)",
        ..FILE_OPTION
    },
    Argument {
        id: "fine",
        help: "Sends 7.7 lines a millimetre in place of 3.85 (with --call)",
        ..FLAG
    },
    Argument {
        id: "from",
        shown: &["N"],
        parser: Some(ValueParser::Signed(1, 4_294_967_295)),
        help: "Sends the pages of IN from the Nth on, and not from the first (with --call)",
        ..FILE_OPTION
    },
    Argument {
        id: "t1",
        help: "How long T1 runs in milliseconds, 35000 if not said",
        ..MILLIS
    },
    Argument {
        id: "t2",
        help: "How long T2 runs in milliseconds, 7000 if not said",
        ..MILLIS
    },
    Argument {
        id: "t4",
        help: "How long T4 runs in milliseconds, 3000 if not said",
        ..MILLIS
    },
    Argument {
        id: "t5",
        help: "How long T5 runs in milliseconds, 60000 if not said",
        ..MILLIS
    },
    Argument {
        id: "hear",
        help: "Says before each wait what is heard, and after it until when",
        ..FLAG
    },
    Argument {
        id: "frames",
        help: "Says bursts by V.21 as the contents of their frames, in place of bits",
        ..FLAG
    },
    Argument {
        id: "late",
        shown: &["MS|off"],
        help: "Sends no answer that comes more than so many milliseconds late, by the system's clock and the times of the lines, 2000 if not said; off sends all",
        ..FILE_OPTION
    },
    Argument {
        id: "trace",
        help: "The file that what is heard and said is written to, with its time",
        ..FILE_OPTION
    },
    Argument {
        id: "trace-frames",
        help: "Writes a line in the trace for each frame of a block, and not one for all of them (with --trace)",
        ..FLAG
    },
    Argument {
        id: "json",
        help: "Writes the trace, how the call ended and a fault as objects of JSON, for programs",
        ..FLAG
    },
    Argument {
        id: "in",
        shown: &["IN"],
        required: false,
        help: "The file of the document, a PBM (with --call, and needed there)",
        ..FILE
    },
    EXPLAIN,
];

const JUDGE_ARGUMENTS: &[Argument<'static>] = &[
    Argument {
        id: "strict",
        help: "Ends with status 1 also where a rule is broken that can be read otherwise, a reading",
        ..FLAG
    },
    Argument {
        id: "json",
        help: "Writes each line as an object of JSON, for programs",
        ..FLAG
    },
    Argument {
        id: "log",
        shown: &["LOG"],
        help: "The file of the log, a line `T caller HEX` or `T answerer HEX` for each frame; - is standard input",
        ..FILE
    },
    Argument {
        help: "Says why a rule is one, on a line after that of a frame; and explains a fault in words too",
        ..EXPLAIN
    },
];

const VERSION_ARGUMENTS: &[Argument<'static>] = &[Argument {
    id: "proof",
    help: "Prints the kit that the program is proved with, as `rt version` names it",
    ..FLAG
}];

/// The first commands, in the order of the help.
static COMMANDS: [Entry<'static>; 3] = [
    Entry {
        name: "code",
        about: "Writes the code of an image into a file",
        arguments: CODE_ARGUMENTS,
    },
    Entry {
        name: "show",
        about: "Prints the first page in a file as text",
        arguments: SHOW_ARGUMENTS,
    },
    Entry {
        name: "decode",
        about: "Writes the first page in a file, or another one, as a PBM; or every page of many files",
        arguments: DECODE_ARGUMENTS,
    },
];

/// The commands after these. A list of all commands is more than the check can take in at once.
static CALL_COMMANDS: [Entry<'static>; 2] = [
    Entry {
        name: "frames",
        about: "Lists the frames in a file of bits",
        arguments: FRAMES_ARGUMENTS,
    },
    Entry {
        name: "call",
        about: "Runs a call by a script or over a bad line, and prints its transcript",
        arguments: CALL_ARGUMENTS,
    },
];

/// The last commands.
static LATER_COMMANDS: [Entry<'static>; 4] = [
    Entry {
        name: "identify",
        about: "Prints as which format a file begins, and by which code, order and width it reads as a page",
        arguments: IDENTIFY_ARGUMENTS,
    },
    Entry {
        name: "judge",
        about: "Prints each frame in the log of a call that breaks a rule of T.30",
        arguments: JUDGE_ARGUMENTS,
    },
    Entry {
        name: "station",
        about: "Runs one end of a call by lines of text that say what is on the line",
        arguments: STATION_ARGUMENTS,
    },
    Entry {
        name: "version",
        about: "Prints the program's version, as --version and -V do",
        arguments: VERSION_ARGUMENTS,
    },
];

/// The program's first commands, those of pages.
pub(crate) fn commands<'a>() -> &'a [Entry<'a>]
    ensures { HasPageCommands (with_commands empty_app result.now) }
{
    &COMMANDS
}

/// The commands after these: the list of frames, and calls.
pub(crate) fn call_commands<'a>() -> &'a [Entry<'a>]
    ensures { (app : App) → HasPageCommands app → BeginsFaxtool (with_commands app result.now) }
{
    &CALL_COMMANDS
}

/// The program's other commands.
pub(crate) fn later_commands<'a>() -> &'a [Entry<'a>]
    ensures { (app : App) → BeginsFaxtool app → IsFaxtool (with_commands app result.now) }
{
    &LATER_COMMANDS
}
