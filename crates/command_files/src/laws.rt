//! Laws of the definitions. Nothing runs.

ghost use Rattle.command_files.specs.FileRows.{FilesAreOne, NumbersAreFound, SizesByNumber, WordsAreOfFiles};

/// Files are one by device and number, and have sizes and places, as examples say it.
pub fn files_by_examples()
    ensures one { FilesAreOne }
    ensures sizes { SizesByNumber }
{}

/// Numbers are found in what the system says of a descriptor, and faults are of files, as examples say it.
pub fn words_by_examples()
    ensures numbers { NumbersAreFound }
    ensures words { WordsAreOfFiles }
{}
