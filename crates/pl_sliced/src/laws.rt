//! What texts for slicing mean.
ghost use Rattle.std.specs.Prelude.{◌≡◌, ◌↔◌, ℕ, List, Ok, Err};
ghost use Rattle.pl_script.specs.declared.fault.ScriptFault.{ScriptFault};
ghost use Rattle.pl_script.specs.Lines.{lines_of};
ghost use Rattle.pl_model.specs.Contents.{Contents};
ghost use Rattle.pl_sliced.specs.declared.fault.SliceFault.{SliceFault};
ghost use Rattle.pl_sliced.specs.declared.text.SliceText.{SliceText};
ghost use Rattle.pl_sliced.specs.Text.{slice_text_of};
ghost use Rattle.pl_sliced.specs.Grammar.{IsSliceText, IsFirstBreach};
ghost use Rattle.pl_sliced.specs.Plates.{sliced_of};
ghost use Rattle.pl_sliced.specs.Slicing.{IsSliced, IsFirstFault};

/// A law: reading gives settings and a mesh exactly where the lines of the text are the head, passed-over lines and these
/// blocks, and a breach exactly where it is the first one of the text's lines.
pub fn slice_texts_have_one_reading()
    ensures texts { (bytes : List ℕ) (text : SliceText) → (slice_text_of bytes ≡ Ok text) ↔ IsSliceText (lines_of bytes) text }
    ensures breaches { (bytes : List ℕ) (line : ℕ) (fault : ScriptFault) → (slice_text_of bytes ≡ Err (record { line = line; fault = fault })) ↔ IsFirstBreach (lines_of bytes) line fault }
{}

/// A law: a plate is given exactly where the text means it and it can be printed, and a fault exactly where it is the text's
/// first one.
pub fn slice_texts_mean_one_plate()
    ensures plates { (bytes : List ℕ) (plate : Contents) → (sliced_of bytes ≡ Ok plate) ↔ IsSliced bytes plate }
    ensures faults { (bytes : List ℕ) (line : ℕ) (fault : SliceFault) → (sliced_of bytes ≡ Err (record { line = line; fault = fault })) ↔ IsFirstFault bytes line fault }
{}
