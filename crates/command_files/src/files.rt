//! Files by their names, of which `-` is standard input or output.

pub mod apart;
pub mod bounded;
pub mod images;
pub mod input;
pub mod leftovers;
pub mod limited;
pub mod output;
pub mod parts;
pub mod printed;
pub mod progress;
pub(crate) mod system_text;
pub mod trial;

/// The name of standard input and of standard output; a file of that name is `./-`.
pub const STANDARD: &str = "-";

/// The name of the file that a command reads, and that of the file that it writes.
#[derive(Clone, Copy)]
pub struct InAndOut<'a> {
    /// The file that is read.
    pub input: &'a str,
    /// The file that is written.
    pub output: &'a str,
}
