//! The table of faults, as the help shows it.

/// What the fault lines mean: the number, and what is wrong.
pub const FAULTS: &str =
    "Faults, as `fault N`, `fault N at bit B` (from 0) or `fault 30 at line L` and 31 (from 1), with status 1:
   1  an image's width isn't 1 to 2432 pixels
   3  an image has more than 20000 rows
   4  an image has no row; at a bit: a page ends before its first row
   5  a file is not a raw PBM (P4)
   6  an image is cut short
   7  an image's file is empty
   8  a file or standard output can't be read or written
   9  memory was refused
  10  at a bit: no valid code begins there
  11  at a bit: the file ends inside a code or before the next one
  12  at a bit: a run goes past the row's width (mh)
  13  at a bit: a vertical mode doesn't move to the right (mmr)
  14  at a bit: a mode or a run goes past the row's width (mmr)
  15  at a bit: a horizontal mode of two runs of 0 pixels (mmr)
  16  at a bit: an extension code (mmr)
  17  at a bit: the page's end is missing (mmr)
  18  at a bit: one row more than 20000
  20  in a list of frames: a content whose address isn't FF
  21  in a list of frames: a content whose control field is neither 03 nor 13
  22  in a list of frames: a content of which a field is missing or cut short
  26  a page's width isn't 1728, 2048 or 2432 pixels, the widths that a call carries
  27  code was given several images
  28  a file has fewer pages than --page or --from says
  29  a file reads as no page in any way that is tried, and begins as no known format
  30  at a line: not a command of a script, or a wrong count or blank
  31  at a line: none that a station knows, or its time runs back
  32  a file of pages has more than 134217728 octets, or a script or a log more than 16777216
Status 2: the words are not a command. With --explain a second line says which file it is, where and why.";
