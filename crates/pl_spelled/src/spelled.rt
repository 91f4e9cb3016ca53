ghost use Rattle.std.specs.Prelude.{◌≡◌, ◌<◌, ◌^◌, ℕ, List, map, Ok};
ghost use Rattle.pl_edit.specs.declared.edit.Edit.{Edit};
ghost use Rattle.pl_edit.specs.declared.reply.EditReply.{EditReply};
ghost use Rattle.pl_machine.specs.declared.entry.Command.{Command};
ghost use Rattle.pl_machine.specs.declared.entry.Entry.{Entry};
ghost use Rattle.pl_machine.specs.History.{IsLegal};
ghost use Rattle.pl_script.specs.Script.{Script, script_of};
ghost use Rattle.pl_transcript.specs.Entries.{transcript};
ghost use Rattle.pl_spelled.specs.Script.{AreOfOneScript, CallsAmong};

use pl_edit::{Edit, EditReply};
use pl_tech::Technology;

/// A law: two legal histories whose calls are commands of one script, and whose transcripts are equal, are equal; and of one
/// history with two numbers of runs, each below 2^64, equal transcripts tell that the numbers are equal.
pub fn transcripts_tell_histories<T: Technology<Edit = Edit, Reply = EditReply>>()
    ensures history { (commands : List (Command Edit)) (history other : List (Entry T T.Plate Edit EditReply T.Output T.Job T.Bench)) (runs others : ℕ) → AreOfOneScript commands → IsLegal T.meaning history → IsLegal T.meaning other → CallsAmong commands history → CallsAmong commands other → transcript T.meaning history runs ≡ transcript T.meaning other others → history ≡ other }
    ensures runs { (history : List (Entry T T.Plate Edit EditReply T.Output T.Job T.Bench)) (runs others : ℕ) → runs < 2 ^ 64 → others < 2 ^ 64 → transcript T.meaning history runs ≡ transcript T.meaning history others → runs ≡ others }
{}

/// A law: for a script, a transcript of a legal history whose calls are its commands tells that history.
pub fn a_script_and_a_transcript_tell_the_history<T: Technology<Edit = Edit, Reply = EditReply>>()
    ensures { (bytes : List ℕ) (script : Script) (history other : List (Entry T T.Plate Edit EditReply T.Output T.Job T.Bench)) (runs others : ℕ) → script_of bytes ≡ Ok script → IsLegal T.meaning history → IsLegal T.meaning other → CallsAmong (map (λ line. line.command) script.lines) history → CallsAmong (map (λ line. line.command) script.lines) other → transcript T.meaning history runs ≡ transcript T.meaning other others → history ≡ other }
{}
