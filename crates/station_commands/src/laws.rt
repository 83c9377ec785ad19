//! Laws of the definitions. Nothing runs.

ghost use Rattle.station_commands.specs.CallRows.{LateByTimes, WholeByFrames};
ghost use Rattle.station_commands.specs.FolderBooks.{AcceptedAreFiled, AnswerersAreNew, AnswersAreFolders, AnswersAreHeld};
ghost use Rattle.station_commands.specs.FolderBooks.{BreaksAreFolders, CommandsBegin, CommandsHoldOne, ConfirmedAreFiled, ConfirmedAreKept};
ghost use Rattle.station_commands.specs.FolderBooks.{DialledAnswer, FolderIsSaid, FolderKeepsAll, KeptAreFiled, StationsFileWhatIsSaid};
ghost use Rattle.station_commands.specs.Folders.{FolderIsStore};
ghost use Rattle.station_commands.specs.Sent.{NoneIsWithheld};

use crate::station::confirmations::Confirmed;
use crate::station::folder::Folder;

/// The folder of `answer` is a store, and a holder, of the kind that `joined_terminals::laws` speak of: it has as many pages as it counts.
pub fn folder_is_store()
    ensures { FolderIsStore }
{}

/// Whatever a folder that stores its pages itself does after a line, it stores the pages of the answerer, all, or those before one that is
/// refused; and only once all are stored the answerer may hang up.
pub fn folder_keeps_all()
    ensures { FolderKeepsAll }
{}

/// The contract of `answer`, of an answerer whose pages go to the folder of `faxtool station --answer`, gives steps by which each page is
/// stored in the folder before anything is said.
pub fn answers_are_folders()
    ensures answers { AnswersAreFolders }
    ensures fails { BreaksAreFolders }
{
    joined_terminals::laws::answers_are_steps();
}

/// From two new conversations and the answerer's folder, whatever happens leads to where the folder has each confirmed page.
pub fn confirmed_are_filed()
    ensures { ConfirmedAreFiled }
{
    joined_terminals::laws::confirmed_are_stored();
}

/// Whoever is on the line, what is in the answerer's folder is what it accepted, and was said on the line, in good frames: after each line
/// after which the call goes on; and what is in it was said once its command's lines go no further.
pub fn folder_is_said()
    ensures accepted { AcceptedAreFiled }
    ensures new { AnswerersAreNew }
    ensures lines { FolderIsSaid }
    ensures command { StationsFileWhatIsSaid }
{
    conversations::laws::stored_is_said::<Folder<'static>>();
}

/// The contract of `answer`, of a caller of `faxtool station --call`, gives the answers of which the headline speaks.
pub fn dialled_answer()
    ensures { DialledAnswer }
{
    joined_terminals::laws::contracts_are_answers::<Folder<'static>, Confirmed<'static>>();
}

/// The new conversations of the commands `dial` and `answer` are those from which the headline begins.
pub fn commands_begin()
    ensures { CommandsBegin }
{}

/// The contract of `answer`, of an answerer whose pages are handed over by the folder of `faxtool station --answer --hold`, gives steps by
/// which no page is confirmed that isn't kept; and such a command's answerer takes one page at a time.
pub fn answers_are_held()
    ensures answers { AnswersAreHeld }
    ensures one { CommandsHoldOne }
{
    joined_terminals::laws::held_answers_are_steps();
    joined_terminals::laws::held_page_stays();
}

/// From two new conversations and a folder whose pages are handed over, whatever happens leads to where each confirmed page is kept. Each
/// page that counts as kept was handed over in a file of its own, and the file that is held has the answerer's page.
pub fn confirmed_are_kept()
    ensures kept { ConfirmedAreKept }
    ensures filed { KeptAreFiled }
{
    joined_terminals::laws::held_are_stored();
    joined_terminals::laws::held_answers_are_steps();
    joined_terminals::laws::held_page_stays();
}

/// Where a command names no time by which an answer may be late, each burst of each answer is sent.
pub fn none_is_withheld()
    ensures { NoneIsWithheld }
{}

/// Answers that are late, and calls that are whole, worked by hand.
pub fn calls_by_hand()
    ensures late { LateByTimes }
    ensures whole { WholeByFrames }
{}
