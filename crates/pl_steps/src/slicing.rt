//! The slices of all layers.
ghost use Rattle.std.specs.Prelude.{◌≡◌, ◌<◌, ◌≤◌, length, IfOk};
ghost use Rattle.pl_layers.specs.Heights.{AreHeights};
ghost use Rattle.pl_steps.specs.Layers.{slices_of};

use pl_grid::Planes;
use pl_layers::{Heights, Sweep, layer_count};
use pl_stl::Mesh;
use pl_units::NoMemory;
use std::alloc::Global;

/// The slices of all layers of a mesh after `quarter` quarter turns counterclockwise, from the lowest on. `quarter` is
/// below 4, and the heights are in their ranges. Refused only for want of memory.
pub fn slices(alloc: Global, mesh: &Mesh, quarter: u8, heights: Heights) -> Result<Planes, NoMemory>
    requires quarter { quarter < 4 }
    requires heights { AreHeights heights }
    ensures slices { IfOk result (λ slices. slices ≡ slices_of mesh.now quarter heights) }
    ensures few { IfOk result (λ slices. length slices ≤ 100000) }
{
    let mut sweep = Sweep::of(alloc, mesh, quarter, heights)?;
    let mut slices = Vec::new(alloc);
    for _layer in 0..layer_count(mesh, heights) {
        slices.push(sweep.next_layer(alloc)?)?;
    }
    Ok(Planes::of(slices))
}
