ghost use Rattle.std.specs.Prelude.{◌≤◌, ◌^◌};
ghost use Rattle.pl_units.specs.Within.{Within};
ghost use Rattle.pl_stl.specs.Mesh.{IsNear, IsNearFacet};

use crate::{Heights, Sweep, cells, layer_count, layer_height, slice_layer, z_of};
use pl_stl::{Facet, Mesh, Point3};
use pl_units::{Nm, NoMemory};
use std::alloc::Global;
use std::test::Fail;

// The facets of a box by its corners: bit 0 of a corner's number is set at the far side in x, bit 1 in y, bit 2 in z.
const FACETS: [[u8; 3]; 12] = [
    [0, 2, 1],
    [1, 2, 3],
    [4, 5, 6],
    [5, 7, 6],
    [0, 1, 4],
    [1, 5, 4],
    [2, 6, 3],
    [3, 6, 7],
    [0, 4, 2],
    [2, 4, 6],
    [1, 3, 5],
    [3, 7, 5],
];

fn side(is_far: bool, length: u32) -> Nm
    requires { length ≤ 1000000 }
    ensures { Within (10 ^ 9) result.0 }
{
    if is_far { Nm(i64::from(length)) } else { Nm(0) }
}

fn corner(number: u8) -> Point3
    ensures { IsNear result }
{
    Point3 {
        x: side(number & 1 != 0, 800_000),
        y: side(number & 2 != 0, 800_000),
        z: side(number & 4 != 0, 400_000),
    }
}

fn facet(corners: &[u8; 3]) -> Facet
    ensures { IsNearFacet result }
{
    Facet {
        a: corner(corners[0]),
        b: corner(corners[1]),
        c: corner(corners[2]),
    }
}

// The box of 0.8 by 0.8 by 0.4 mm.
fn small_box(alloc: Global) -> Result<Mesh, NoMemory> {
    let mut facets = Vec::new(alloc);
    for corners in &FACETS {
        facets.push(facet(corners))?;
    }
    Ok(Mesh::of(facets))
}

#[test]
fn the_small_box_is_filled_at_each_quarter(rt: HostRuntime) -> Result<(), Fail> {
    let mesh = small_box(rt.alloc())?;
    let heights = Heights {
        first: Nm(200_000),
        height: Nm(200_000),
    };
    assert_eq!(rt; z_of(heights, 1), Nm(400_000));
    assert_eq!(rt; layer_height(heights, 0), Nm(200_000));
    let layers = layer_count(&mesh, heights);
    assert_eq!(rt; layers, 2);
    for quarter in 0..4u8 {
        let bounds = cells(&mesh, quarter);
        assert_eq!(rt; (bounds.cols, bounds.rows), (2, 2), "at quarter {quarter}");
        for k in 0..layers {
            let plane = slice_layer(rt.alloc(), &mesh, quarter, heights, k)?;
            for (x, y) in [(0, 0), (1, 0), (0, 1), (1, 1)] {
                assert!(rt;
                    plane.get(x, y),
                    "cell {x} {y} of layer {k} at quarter {quarter}"
                );
            }
        }
    }
    Ok(())
}

#[test]
fn a_sweep_gives_each_layer_in_turn(rt: HostRuntime) -> Result<(), Fail> {
    let mesh = small_box(rt.alloc())?;
    let heights = Heights {
        first: Nm(200_000),
        height: Nm(200_000),
    };
    for quarter in 0..4u8 {
        let mut sweep = Sweep::of(rt.alloc(), &mesh, quarter, heights)?;
        for k in 0..layer_count(&mesh, heights) {
            let plane = sweep.next_layer(rt.alloc())?;
            for (x, y) in [(0, 0), (1, 0), (0, 1), (1, 1)] {
                assert!(rt;
                    plane.get(x, y),
                    "cell {x} {y} of layer {k} at quarter {quarter}"
                );
            }
        }
    }
    Ok(())
}
