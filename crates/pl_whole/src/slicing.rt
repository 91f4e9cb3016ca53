//! The G-code of a plate.
ghost use Rattle.std.specs.Prelude.{◌≡◌, ◌↔◌, Some, None, IfOk, Err};
ghost use Rattle.pl_model.specs.Printable.{CanBePrinted};
ghost use Rattle.pl_model.specs.Problem.{problem_of};
ghost use Rattle.pl_tech.specs.declared.problem.Problem.{Problem};
ghost use Rattle.pl_values.specs.Whole.{plate_gcode};
ghost use Rattle.pl_parts.specs.Parts.{data_of};
ghost use Rattle.pl_whole.specs.Printed.{around_of, objects_for};
ghost use Rattle.pl_whole.specs.declared.fault.WholeFault.TheVariants as faults;

use crate::around::Around;
use crate::fault::WholeFault;
use crate::objects::{PrintedObject, all_parts, printed_objects};
use pl_model::Plate;
use pl_parts::{PrintLists, PrintParts, gcode};
use pl_prints::{in_range, places};
use pl_units::{NoMemory, Text};
use std::alloc::Global;

// The lists of the print of a plate.
fn print_lists<'a, 'b>(
    alloc: Global,
    plate: &'b Plate,
    around: &'b Around,
    objects: &'b [Option<PrintedObject<'a>>],
) -> Result<PrintLists<'b>, NoMemory>
    requires around { around.now ≡ around_of plate.now }
    requires objects { objects.now ≡ objects_for plate.now }
    ensures { IfOk result (λ lists. lists ≡ data_of plate.now) }
{
    Ok(PrintLists {
        config: plate.config(),
        heights: &around.heights,
        tools: &around.tools,
        blocks: &around.blocks,
        skirt: &around.skirt,
        brim: &around.brim,
        objects: all_parts(alloc, objects)?,
    })
}

// The G-code of a plate without a problem.
fn printed(alloc: Global, plate: &Plate) -> Result<Text, NoMemory>
    requires { CanBePrinted plate.now }
    ensures { IfOk result (λ text. text ≡ plate_gcode plate.now) }
{
    in_range(plate);
    let objects = printed_objects(alloc, plate)?;
    let around = Around::of(alloc, plate, &objects)?;
    let places = places(alloc, plate)?;
    let lists = print_lists(alloc, plate, &around, &objects)?;
    gcode(alloc, &PrintParts::of(lists, places))
}

/// The G-code of a plate, each layer computed once, on the thread that calls. `Problem` says why the plate can't be printed,
/// exactly where it can't; else it is refused only for want of memory, by `NoMemory`.
pub fn slice_whole(alloc: Global, plate: &Plate) -> Result<Text, WholeFault>
    ensures text { IfOk result (λ text. text ≡ plate_gcode plate.now) }
    ensures printable { IfOk result (λ _. CanBePrinted plate.now) }
    ensures none { IfOk result (λ _. problem_of plate.now ≡ None) }
    ensures problem { (problem : Problem) → (result ≡ Err (faults.Problem problem)) ↔ (problem_of plate.now ≡ Some problem) }
{
    match plate.problem() {
        Some(problem) => Err(WholeFault::Problem(problem)),
        None => Ok(printed(alloc, plate)?),
    }
}
