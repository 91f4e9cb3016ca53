//! The plate that a text for slicing means.
ghost use Rattle.std.specs.Prelude.{◌≡◌, ◌⊎◌, ◌+◌, ◌≤◌, ◌^◌, ℕ, Ok, Err, None, IfOk, IfSome, IfErr, OnOk, MatchResult, length};
ghost use Rattle.pl_units.specs.declared.Refusal.TheVariants as refusals;
ghost use Rattle.pl_edit.specs.declared.edit.Edit.TheVariants as edits;
ghost use Rattle.pl_model.specs.Contents.{Contents};
ghost use Rattle.pl_model.specs.Outcomes.{edit_reply};
ghost use Rattle.pl_sliced.specs.declared.fault.SliceFault.{SliceFault as Fault};
ghost use Rattle.pl_sliced.specs.Plates.{block_fault, made, configured, loaded, plate_of, sliced_of};
ghost use Rattle.pl_sliced.specs.Slicing.{IsSliced, IsFirstFault};
ghost use Rattle.pl_sliced.specs.Reading.{IsPart, HasParts, Refuses};

use crate::fault::SliceFault;
use crate::read::read_text;
use crate::text::{Part, SliceText};
use pl_edit::{Edit, EditRefusal, EditReply};
use pl_model::Plate;
use pl_units::{Refusal, Text};
use std::alloc::Global;

/// The plate that a text of at most 2^28 bytes means. Its first line is `plater 1`; then it has blocks, each a line
/// `data NAME`, its lines and a line `.end`, and between them lines that are passed over: empty ones and those that begin
/// with `#`. The block `mesh` has to be there, and `settings` may be; no other is taken. The plate is the blank one with
/// the settings put and then the mesh loaded, under the name `mesh`. Lines are counted from 1. A text that is none is
/// refused at the first breach of its lines, and one without a mesh as `NoData` at its last line; then at the first breach
/// of the settings, then at that of the mesh, each at its line in the whole text; then a plate that can't be printed is
/// refused by its problem, at the data line of the mesh. After want of memory there is no plate.
pub fn read_sliced(alloc: Global, bytes: &[u8]) -> Result<Plate, Refusal<SliceFault>>
    requires { length bytes.now ≤ 2 ^ 28 }
    ensures plate { IfOk result (IsSliced bytes.now) }
    // The plate that a text means is given, and no other, unless memory runs out.
    ensures taken { (plate : Contents) → IsSliced bytes.now plate → MatchResult result (λ read. read ≡ plate) (λ e. e ≡ refusals.NoMemory) }
    ensures refused { (line : ℕ) (fault : Fault) → result ≡ Err (refusals.Fault line fault) → IsFirstFault bytes.now line fault }
    // The first fault of a text is named, unless memory runs out before it.
    ensures named { (line : ℕ) (fault : Fault) → IsFirstFault bytes.now line fault → MatchResult result (λ _. ⊥) (λ e. (e ≡ refusals.Fault line fault) ⊎ (e ≡ refusals.NoMemory)) }
    // The call answers what the text says, unless memory runs out.
    ensures reading { MatchResult result (λ plate. sliced_of bytes.now ≡ Ok plate) (Refuses (sliced_of bytes.now)) }
{
    read_plate(alloc, bytes)
}

// The same, as it is computed.
fn read_plate(alloc: Global, bytes: &[u8]) -> Result<Plate, Refusal<SliceFault>>
    requires { length bytes.now ≤ 2 ^ 28 }
    ensures { MatchResult result (λ plate. sliced_of bytes.now ≡ Ok plate) (Refuses (sliced_of bytes.now)) }
{
    match read_text(alloc, bytes) {
        Ok(text) => plate_of(alloc, text),
        Err(Refusal::Fault { line, fault }) => Err(Refusal::Fault {
            line,
            fault: SliceFault::Script(fault),
        }),
        Err(Refusal::NoMemory) => Err(Refusal::NoMemory),
    }
}

// The plate that a text's blocks mean.
fn plate_of(alloc: Global, text: SliceText) -> Result<Plate, Refusal<SliceFault>>
    requires { HasParts text }
    ensures { MatchResult result (λ plate. plate_of text ≡ Ok plate) (Refuses (plate_of text)) }
{
    let mut plate = configured(alloc, text.settings)?;
    let number = text.mesh.line;
    load(alloc, &mut plate, text.mesh)?;
    match plate.problem() {
        Some(problem) => Err(Refusal::Fault {
            line: number,
            fault: SliceFault::Problem(problem),
        }),
        None => Ok(plate),
    }
}

// The blank plate.
fn blank(alloc: Global) -> Result<Plate, Refusal<SliceFault>>
    ensures { MatchResult result (λ plate. configured None ≡ Ok plate) (λ e. e ≡ refusals.NoMemory) }
{
    match Plate::blank(alloc) {
        Ok(plate) => Ok(plate),
        Err(_) => Err(Refusal::NoMemory),
    }
}

// The blank plate with the settings, if there are any.
fn configured(alloc: Global, settings: Option<Part>) -> Result<Plate, Refusal<SliceFault>>
    requires { IfSome settings IsPart }
    ensures { MatchResult result (λ plate. configured settings ≡ Ok plate) (Refuses (configured settings)) }
{
    let mut plate = blank(alloc)?;
    if let Some(part) = settings {
        put(alloc, &mut plate, part)?;
    }
    Ok(plate)
}

// Puts settings.
fn put(alloc: Global, plate: &mut Plate, part: Part) -> Result<(), Refusal<SliceFault>>
    requires { IsPart part }
    ensures put { OnOk result (made plate.old part.line (edits.Ini part.block) ≡ Ok plate.new) }
    ensures refused { IfErr result (Refuses (made plate.old part.line (edits.Ini part.block))) }
{
    let edit = Edit::Ini { block: part.block };
    make(alloc, plate, part.line, &edit)
}

// Loads a mesh.
fn load(alloc: Global, plate: &mut Plate, part: Part) -> Result<(), Refusal<SliceFault>>
    requires { IsPart part }
    ensures loaded { OnOk result (loaded part plate.old ≡ Ok plate.new) }
    ensures refused { IfErr result (Refuses (loaded part plate.old)) }
{
    let Ok(name) = Text::copy_of(alloc, b"mesh") else {
        return Err(Refusal::NoMemory);
    };
    let edit = Edit::Load {
        name,
        block: part.block,
    };
    make(alloc, plate, part.line, &edit)
}

// Makes an edit with the block whose data line has this number.
fn make(
    alloc: Global,
    plate: &mut Plate,
    number: u32,
    edit: &Edit,
) -> Result<(), Refusal<SliceFault>>
    requires early { number ≤ 2 ^ 28 + 2 }
    requires few { IfSome (block_fault (edit_reply plate.old edit.now)) (λ told. told.0 ≤ 2 ^ 29) }
    ensures made { OnOk result (made plate.old number edit.now ≡ Ok plate.new) }
    ensures refused { IfErr result (Refuses (made plate.old number edit.now)) }
{
    let Ok(reply) = plate.edit(alloc, edit) else {
        return Err(Refusal::NoMemory);
    };
    match block_fault(&reply) {
        Some((line, fault)) => Err(Refusal::Fault {
            line: number + line,
            fault,
        }),
        None => Ok(()),
    }
}

// The fault of a block that a reply tells, and its line in the block.
fn block_fault(reply: &EditReply) -> Option<(u32, SliceFault)>
    ensures { result ≡ block_fault reply.now }
{
    match reply {
        EditReply::Refused(EditRefusal::BadIni(line, fault)) => {
            Some((*line, SliceFault::Ini(*fault)))
        }
        EditReply::Refused(EditRefusal::BadStl(line, fault)) => {
            Some((*line, SliceFault::Stl(*fault)))
        }
        _ => None,
    }
}
