//! Laws of the definitions. Nothing runs.

ghost use Rattle.calls.specs.BadLines.{BadCallsEnd};
ghost use Rattle.calls.specs.Losses.{FatesAreShared};
ghost use Rattle.calls.specs.OptionsMean.{LinesAreAsked, OptionsMean, PatienceIsT5};
ghost use Rattle.calls.specs.Scripts.{IsLineFault, IsScript, RefusesScript};
ghost use Rattle.calls.specs.ScriptsMean.{CountsMake, CountsMean, LinesMean, WordsDo};
ghost use Rattle.calls.specs.Transcripts.{ArePrintedLines};
ghost use Rattle.faults.specs.declared.fault.ToolFault.{ToolFault};
ghost use Rattle.faults.specs.declared.fault.ToolFault.TheVariants.{No};
ghost use Rattle.faults.specs.declared.line_fault.LineFault.{LineFault};
ghost use Rattle.calls.specs.declared.script.Command.{Command};
ghost use Rattle.std.specs.Prelude.{ℕ, ◌≡◌, List};

/// A text says at most one list of commands, and a text that says one is refused only for memory.
pub fn one_script()
    ensures says { (text : List ℕ) (a b : List Command) → IsScript text a → IsScript text b → a ≡ b }
    ensures refused { (text : List ℕ) (fault : ToolFault) → RefusesScript text fault → (commands : List Command)
        → IsScript text commands → fault ≡ No 9 }
{}

/// A call over a bad line ends, whatever its generator draws: it is over after more steps than its document bounds.
pub fn bad_calls_end()
    ensures { BadCallsEnd }
{
    stations::laws::speeds_hold();
    stations::laws::callers_end();
}

/// A line of a script is wrong in one way alone.
pub fn one_line_fault()
    ensures { (line : List ℕ) (a b : LineFault) → IsLineFault line a → IsLineFault line b → a ≡ b }
{}

/// Three events and the words of three ends are printed as `ArePrintedLines` writes them out.
pub fn printed_lines()
    ensures { ArePrintedLines }
{}

/// What each word of a script does to a call, and how often: each number from 1 to 1,000,000 can be written, and no other. What a line adds
/// to the script after it. Lines that are refused are counted from 1.
pub fn scripts_mean()
    ensures words { WordsDo }
    ensures numbers { CountsMean }
    ensures times { CountsMake }
    ensures lines { LinesMean }
{}

/// For all options of a call: the octets of the DIS that it begins with, and that the stations agree on the code, the frames, the lines and
/// the speed that the options say, for pages of each width, fine or not. How often it is tried over a bad line.
pub fn options_mean()
    ensures stations { OptionsMean }
    ensures lines { LinesAreAsked }
    ensures patience { PatienceIsT5 }
{}

/// What a word of the generator makes of an item, by the shares of the line: the first words lose it, the next ones spoil it, and after the
/// others it comes. Which words make the answerer busy.
pub fn fates_are_shared()
    ensures { FatesAreShared }
{}
