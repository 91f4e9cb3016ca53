//! What reading gives of each text.
ghost use Rattle.std.specs.Prelude.{◌≡◌, ◌↔◌, ℕ, ◌<◌, List, Ok, Err};
ghost use Rattle.pl_script.specs.declared.fault.ScriptFault.{ScriptFault};
ghost use Rattle.pl_script.specs.Lines.{lines_of};
ghost use Rattle.pl_edit.specs.Data.{Data};
ghost use Rattle.pl_script.specs.Orders.{Order};
ghost use Rattle.pl_script.specs.Commands.{IsCommandLine, IsLineFault};
ghost use Rattle.pl_script.specs.Script.{Script, script_of, command_of};
ghost use Rattle.pl_script.specs.Grammar.{IsScriptText, IsFirstBreach};

/// A law: reading gives a script exactly where the lines of the text are those of that script, and a breach exactly where it
/// is the first one of the text's lines.
pub fn script_texts_have_one_reading()
    ensures scripts { (bytes : List ℕ) (script : Script) → (script_of bytes ≡ Ok script) ↔ IsScriptText (lines_of bytes) script }
    ensures breaches { (bytes : List ℕ) (line : ℕ) (fault : ScriptFault) → (script_of bytes ≡ Err (record { line = line; fault = fault })) ↔ IsFirstBreach (lines_of bytes) line fault }
{}

/// A law: behind these blocks and so many command lines, a text is read as a command line exactly where it says one and is at most the
/// 10,000th, and refused by a fault exactly where that is the first one that it has.
pub fn command_lines_have_one_reading()
    ensures lines { (blocks : List Data) (before number : ℕ) (text : List ℕ) (session : ℕ) (order : Order) → (command_of blocks before number text ≡ Ok (record { number = number; session = session; command = order })) ↔ (IsCommandLine blocks text session order × (before < 10000)) }
    ensures faults { (blocks : List Data) (before number : ℕ) (text : List ℕ) (fault : ScriptFault) → (command_of blocks before number text ≡ Err fault) ↔ IsLineFault blocks before text fault }
{}
