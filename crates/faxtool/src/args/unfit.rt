//! Why the values of a command give no command.

/// Why the values of a command give no command, though each option takes its own. `clap`'s exact contracts hold for commands without
/// conflicting arguments, so the program refuses these itself.
#[derive(Clone, Copy, Debug, PartialEq, Eq)]
pub enum Unfit {
    /// There is no command, or a value that it needs isn't there; `clap` refuses that first.
    Missing,
    /// `decode` of one page without OUT.
    NoOut,
    /// `decode` of one page with several OUT.
    ManyOuts,
    /// `decode` with `--code` and without `--width`.
    HalfForm,
    /// `--each`, and an option for one page.
    EachAndOne,
    /// `--each` without a file.
    NoFiles,
    /// Standard input is both a file and the list of files.
    FileAndFromStandard,
    /// One page, and an option for many files.
    OneAndMany,
    /// `decode` of one page without FILE.
    NoFile,
    /// `--repair` and `--salvage`, without `--each`.
    RepairAndSalvage,
    /// `frames` without FILE and without a picture.
    NoCapture,
    /// `--salvage` without `--pages`.
    NoPages,
    /// A picture, and an option for listing one capture.
    PictureAndListing,
    /// Two captures without `--diagram`.
    NoPicture,
    /// `--diagram` without both captures.
    NoCaptures,
    /// Both captures are standard input.
    CapturesBothStandard,
    /// `--script` and `--lose`.
    ScriptAndLose,
    /// `--script`, and an option of a bad line.
    ScriptAndLine,
    /// The script and the document are both standard input.
    ScriptAndInStandard,
    /// Neither `--script` nor `--lose`.
    NoScript,
    /// A rate that is no rate.
    NoRate,
    /// `--lose` without `--seed`.
    NoSeed,
    /// The rates of `--lose` and `--spoil` are above 1 together.
    RatesAboveAll,
    /// `--times` and `--out`.
    TimesAndOut,
    /// `--times` and `--bits`.
    TimesAndBits,
    /// `--times` and `--expect`.
    TimesAndExpect,
    /// `--times` and `--diagram`.
    TimesAndDiagram,
    /// `--times` and `--json`.
    TimesAndJson,
    /// Neither `--answer` nor `--call`.
    NoStation,
    /// `--answer` and `--call`.
    BothStations,
    /// An answerer with an option for a caller.
    AnswererAsCaller,
    /// An answerer without `--out`.
    NoFolder,
    /// A mode that is none.
    NoMode,
    /// A value of `--late` that is none.
    NoLate,
    /// `--refuse` and `--no-refuse`.
    RefuseAndNot,
    /// `--hold` and `--limit`.
    HoldAndLimit,
    /// A caller with an option for an answerer.
    CallerAsAnswerer,
    /// A caller without IN.
    NoDocument,
    /// The document of a caller is standard input.
    DocumentStandard,
}

impl Unfit {
    /// Returns what is wrong, for the user.
    pub fn words(self) -> &'static str {
        self.page_words()
            .or(self.frames_words())
            .or(self.call_words())
            .or(self.station_words())
            .unwrap_or("a value is missing")
    }

    /// Returns what is wrong with `decode`.
    fn page_words(self) -> Option<&'static str> {
        let words = match self {
            Unfit::NoOut => "OUT is missing, or --each, the folder of the pages of many files",
            Unfit::ManyOuts => "one page goes to one OUT: for many files --each is missing",
            Unfit::HalfForm => "--code needs --width, the width of the page",
            Unfit::EachAndOne =>
                "--page and --verbose are for one page, and can't be used with --each",
            Unfit::NoFiles => "FILE is missing, or --from, the list of files",
            Unfit::FileAndFromStandard => "--from and FILE can't both be standard input",
            Unfit::OneAndMany =>
                "--from, --null, --resume and --most-.. are for many files, with --each",
            Unfit::NoFile => "FILE is missing",
            Unfit::RepairAndSalvage =>
                "--repair and --salvage can be used together only with --each",
            _ => return None,
        };
        Some(words)
    }

    /// Returns what is wrong with `frames`.
    fn frames_words(self) -> Option<&'static str> {
        let words = match self {
            Unfit::NoCapture => "FILE is missing, or --diagram with --caller and --answerer",
            Unfit::NoPages => "--salvage needs --pages",
            Unfit::PictureAndListing =>
                "--diagram draws two captures, and can't be used with FILE, --data, --pages or --salvage",
            Unfit::NoPicture => "--caller and --answerer are for a picture, with --diagram",
            Unfit::NoCaptures =>
                "--diagram needs --caller and --answerer, the files of what both stations sent",
            Unfit::CapturesBothStandard => "--caller and --answerer can't both be standard input",
            _ => return None,
        };
        Some(words)
    }

    /// Returns what is wrong with `call`.
    fn call_words(self) -> Option<&'static str> {
        let words = match self {
            Unfit::ScriptAndLose => "--script and --lose can't be used together",
            Unfit::ScriptAndLine =>
                "--spoil, --busy, --seed, --calls and --times are for a call with --lose",
            Unfit::ScriptAndInStandard => "--script and <IN> can't both be standard input",
            Unfit::NoScript => "--script or --lose is missing",
            Unfit::NoRate => "a rate is a percentage, as 5%, or a fraction, as 1/20, and 1 at most",
            Unfit::NoSeed => "--lose needs --seed",
            Unfit::RatesAboveAll => "--lose and --spoil are more than 100% together",
            Unfit::TimesAndOut => "--times keeps no pages, and can't be used with --out",
            Unfit::TimesAndBits => "--times keeps no octets, and can't be used with --bits",
            Unfit::TimesAndExpect =>
                "--times counts the ends of many calls, and can't be used with --expect",
            Unfit::TimesAndDiagram => "--times draws no call, and can't be used with --diagram",
            Unfit::TimesAndJson => "--times prints a table, and can't be used with --json",
            _ => return None,
        };
        Some(words)
    }

    /// Returns what is wrong with `station`.
    fn station_words(self) -> Option<&'static str> {
        let words = match self {
            Unfit::NoStation => "a station answers or calls: either --answer or --call is needed",
            Unfit::BothStations => "--answer and --call can't be used together",
            Unfit::AnswererAsCaller =>
                "--frame, --fine, --from and IN are for a station with --call",
            Unfit::NoFolder => "--answer needs --out, the folder of the pages",
            Unfit::NoMode => "a mode is three octal digits, perhaps after a 0, as 0640",
            Unfit::NoLate => "--late is 1 to 3600000 milliseconds, or off",
            Unfit::RefuseAndNot => "--refuse and --no-refuse can't be used together",
            Unfit::HoldAndLimit =>
                "--hold takes one page at a time, and can't be used with --limit",
            Unfit::CallerAsAnswerer =>
                "--out, --standard, --widest, --limit, --mode, --most-pages, --most-octets, --refuse and --hold are for a station with --answer",
            Unfit::NoDocument => "--call needs IN, the file of the document",
            Unfit::DocumentStandard => "IN can't be standard input, where the lines come",
            _ => return None,
        };
        Some(words)
    }
}
