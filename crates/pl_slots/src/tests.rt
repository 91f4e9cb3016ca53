//! Names of slots, and the bytes of their results.
use crate::{FffOutput, Lengths, Sliced, ToolLists, TowerSet, put_name};
use pl_grid::Planes;
use pl_layers::Heights;
use pl_steps::{LoopLists, Loops, PerimeterSet, StrokeLists, SupportSet, Surfaces};
use pl_tech::Slot;
use pl_tower::Tools;
use pl_units::{Nm, NoMemory, Text};
use std::alloc::Global;
use std::test::Fail;

#[test]
fn slots_are_named_by_their_places_and_steps(rt: HostRuntime) {
    let table = [
        (0, b"0.slice".as_slice()),
        (1, b"0.perimeters"),
        (8, b"1.prepare"),
        (15, b"2.infill"),
        (58, b"9.ironing"),
        (61, b"10.perimeters"),
        (95, b"15.support"),
        (96, b"tower"),
        (97, b"skirt"),
        (98, b"brim"),
        (99, b"export"),
    ];
    for (number, name) in &table {
        let mut out = [0; 16];
        let len = put_name(Slot::of(*number), &mut out);
        assert!(rt; &out[..len] == *name, "{number}");
    }
}

// The tower of a print of one height, whose tools are these.
fn tower(alloc: Global, tools: &[u8]) -> Result<TowerSet, NoMemory> {
    let mut heights = Vec::new(alloc);
    heights.push(Nm(200000))?;
    let mut lists = Vec::new(alloc);
    lists.push(Tools::of(Vec::from_slice(alloc, tools)?))?;
    Ok(TowerSet {
        heights: Lengths::of(heights),
        tools: ToolLists::of(lists),
        blocks: StrokeLists::of(Vec::new(alloc)),
    })
}

#[test]
fn a_tower_has_its_heights_and_tools(rt: HostRuntime) -> Result<(), Fail> {
    let tower = tower(rt.alloc(), &[2, 0])?;
    let heights = tower.heights.lengths();
    assert_eq!(rt; heights.len(), 1);
    assert!(rt; heights[0] == Nm(200000));
    let tools = tower.tools.lists();
    assert_eq!(rt; tools.len(), 1);
    assert!(rt; tools[0].tools() == [2, 0].as_slice());
    Ok(())
}

#[test]
fn only_gcode_has_bytes(rt: HostRuntime) -> Result<(), Fail> {
    let alloc = rt.alloc();
    let heights = Heights {
        first: Nm(200000),
        height: Nm(200000),
    };
    let others = [
        FffOutput::Slices(Sliced {
            heights,
            planes: Planes::of(Vec::new(alloc)),
        }),
        FffOutput::Perimeters(PerimeterSet {
            loops: LoopLists::of(Vec::new(alloc)),
            inner: Planes::of(Vec::new(alloc)),
        }),
        FffOutput::Surfaces(Surfaces::of(Vec::new(alloc))),
        FffOutput::Strokes(StrokeLists::of(Vec::new(alloc))),
        FffOutput::Support(SupportSet {
            cells: Planes::of(Vec::new(alloc)),
            strokes: StrokeLists::of(Vec::new(alloc)),
        }),
        FffOutput::Tower(tower(alloc, &[1])?),
        FffOutput::Loops(Loops::of(Vec::new(alloc))),
    ];
    for output in &others {
        assert!(rt; output.bytes().is_empty());
    }
    let gcode = FffOutput::Gcode(Text::copy_of(alloc, b"G21\n")?);
    assert!(rt; gcode.bytes() == b"G21\n".as_slice());
    Ok(())
}
