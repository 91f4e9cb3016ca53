//! Settings texts.
ghost use Rattle.std.specs.Prelude.{◌≡◌, ◌≤◌, ◌<◌, ◌+◌, ◌^◌, ◌⊎◌, ℕ, [], length, IfOk, IfSome, MatchResult, Ok, Err};
ghost use Rattle.std.specs.Option.{option_copied};
ghost use Rattle.std.specs.FinMap as map;
ghost use Rattle.pl_units.specs.declared.Refusal.TheVariants as refusals;
ghost use Rattle.pl_keys.specs.Values.{IsValueOf};
ghost use Rattle.pl_options.specs.declared.fault.IniFault.{IniFault};
ghost use Rattle.pl_options.specs.KeyMap.{Fits};
ghost use Rattle.pl_options.specs.Lines.{line_of};
ghost use Rattle.pl_options.specs.Settings.{Settings, settings_of, IsSettingsText, IsFirstBreach};
ghost use Rattle.pl_options.specs.Reading.{Takes, IsRefusal};

use crate::fault::IniFault;
use crate::line::{Line, read_line};
use crate::values::Values;
use pl_keys::{Key, Value};
use pl_units::Refusal;
use std::alloc::Global;
use std::marker::Model;

/// The settings of a text: for each option that a line sets the value of its last line, and how many lines have a key of the
/// table, and how many another key.
#[derive(Drop)]
pub struct IniSet {
    values: Values,
    taken: u32,
    passed: u32,
}

impl Model for IniSet {
    ghost use Rattle.pl_options.specs.KeyMap.{Fits};
    ghost use Rattle.pl_options.specs.Settings.{Settings, settings_code};

    ghost Value = { Settings };

    ghost coded = { settings_code };

    ghost view = { λ s. record { values = s.values; taken = s.taken; passed = s.passed } };

    ghost invariant = { λ s. Fits s.values };
}

impl IniSet {
    // No settings.
    fn new(alloc: Global) -> IniSet
        ensures { result ≡ settings_of [] }
    {
        IniSet {
            values: Values::new(alloc),
            taken: 0,
            passed: 0,
        }
    }

    /// The value of an option, if a line sets it.
    pub fn get(&self, key: Key) -> Option<&Value>
        ensures value { option_copied result ≡ map.get self.now.values key }
        ensures fits { IfSome result (λ value. IsValueOf key value.now) }
    {
        self.values.get(key)
    }

    /// How many lines have a key of the table.
    pub fn taken(&self) -> u32
        ensures { result ≡ self.now.taken }
    {
        self.taken
    }

    /// How many lines have a key that is not in the table.
    pub fn passed(&self) -> u32
        ensures { result ≡ self.now.passed }
    {
        self.passed
    }

    /// The values.
    pub(crate) fn into_values(self) -> Values
        ensures values { result ≡ self.values }
        ensures fits { Fits result }
    {
        self.values
    }

    // Takes the line of a number. After a refusal the settings are as before.
    fn take(&mut self, alloc: Global, text: &[u8], number: u32) -> Result<(), Refusal<IniFault>>
        requires short { length text.now ≤ 2 ^ 28 }
        requires taken { self.old.taken < 2 ^ 30 }
        requires passed { self.old.passed < 2 ^ 30 }
        ensures { Takes number (line_of text.now) self.old self.new result }
    {
        match read_line(alloc, text, number)? {
            Line::Nothing => {}
            Line::Unknown => self.passed += 1,
            Line::Put(key, value) => {
                if self.values.put(key, value).is_err() {
                    return Err(Refusal::NoMemory);
                }
                self.taken += 1;
            }
        }
        Ok(())
    }
}

// The settings of a text.
fn read_lines(alloc: Global, bytes: &[u8]) -> Result<IniSet, Refusal<IniFault>>
    requires { length bytes.now ≤ 2 ^ 28 }
    ensures { MatchResult result (IsSettingsText bytes.now) (IsRefusal bytes.now) }
{
    let mut set = IniSet::new(alloc);
    let mut number = 0;
    for line in bytes.split(|b| *b == b'\n') {
        number += 1;
        set.take(alloc, line, number)?;
    }
    Ok(set)
}

/// Reads a settings text of at most 2^28 bytes. White space at both ends of a line is dropped; then an empty line, or one that
/// begins with `#`, `;` or `[`, is passed over. In any other line the key stands before the first `=` and its value after it,
/// white space round both is dropped, and the value of a key of the table is read. Refused exactly at the first line that
/// breaks, counted from 1: `NoEquals` where it has no `=`, `BadValue` where its value is not of the key's kind, `OutOfRange`
/// where it is but out of the key's range.
pub fn read_ini(alloc: Global, bytes: &[u8]) -> Result<IniSet, Refusal<IniFault>>
    requires { length bytes.now ≤ 2 ^ 28 }
    ensures set { IfOk result (IsSettingsText bytes.now) }
    // A settings text is read, and no other settings than its own are given, unless memory runs out.
    ensures taken { (settings : Settings) → IsSettingsText bytes.now settings → MatchResult result (λ set. set ≡ settings) (λ e. e ≡ refusals.NoMemory) }
    ensures refused { (line : ℕ) (fault : IniFault) → result ≡ Err (refusals.Fault line fault) → IsFirstBreach bytes.now line fault }
    // The first breach of a text is named, unless memory runs out before it.
    ensures named { (line : ℕ) (fault : IniFault) → IsFirstBreach bytes.now line fault → MatchResult result (λ _. ⊥) (λ e. (e ≡ refusals.Fault line fault) ⊎ (e ≡ refusals.NoMemory)) }
{
    read_lines(alloc, bytes)
}
