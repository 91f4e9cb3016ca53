//! What follows from the definitions.
ghost use Rattle.std.specs.Prelude.{◌≡◌, ◌+◌, ℕ, List, length};
ghost use Rattle.std.specs.List.{concat};
ghost use Rattle.pl_edit.specs.declared.edit.Edit.{Edit};
ghost use Rattle.pl_edit.specs.declared.reply.EditReply.{EditReply};
ghost use Rattle.pl_machine.specs.declared.entry.Entry.{Entry};
ghost use Rattle.pl_transcript.specs.Entries.{lines, transcript};

use pl_tech::Technology;

/// A law: the transcript of a history is its lines one after another, one for each entry and a last one.
pub fn transcripts_are_lines<T: Technology<Edit = pl_edit::Edit, Reply = pl_edit::EditReply>>()
    ensures text { (history : List (Entry T T.Plate Edit EditReply T.Output T.Job T.Bench)) (runs : ℕ) → transcript T.meaning history runs ≡ concat (lines T.meaning history runs) }
    ensures count { (history : List (Entry T T.Plate Edit EditReply T.Output T.Job T.Bench)) (runs : ℕ) → length (lines T.meaning history runs) ≡ length history + 1 }
{}
