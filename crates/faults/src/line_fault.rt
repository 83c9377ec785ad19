//! What is wrong with a line of a script.

/// What is wrong with a line of a script: the first of these that holds, so each line has one fault.
#[derive(Clone, Copy, Debug, PartialEq, Eq)]
pub enum LineFault {
    /// It isn't UTF-8.
    NotUtf8,
    /// It has a tab, a CR, or a space that isn't the only one between two words.
    Blank,
    /// Its first word is no command of a script.
    Word,
    /// Its first word is a command of a script, and the count is missing or isn't 1 to 1,000,000.
    Count,
}
