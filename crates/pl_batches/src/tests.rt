//! Boxes and rows of cells, batch by batch.
ghost use Rattle.std.specs.Prelude.{◌≡◌, ◌∷◌, [], pos, length, false, IfOk, AllPairs};
ghost use Rattle.pl_ports.specs.Scripted.{probe_polls, probe_raised};
ghost use Rattle.pl_fill.specs.Surfaces.{HaveEqualBoxes};

use crate::{
    infill_batches, ironing_batches, perimeter_batches, slice_batches, support_batches,
    surface_batches, tool_batches,
};
use pl_edit::{Block, Edit, ValueText};
use pl_grid::{Box2, Plane, Planes};
use pl_layers::Heights;
use pl_model::Plate;
use pl_ports::ScriptedProbe;
use pl_prints::{ObjectLayers, tops};
use pl_steps::{StrokeLists, SupportSet, Surfaces};
use pl_stl::{Mesh, read_stl};
use pl_tech::Ran;
use pl_tower::Tools;
use pl_units::{Nm, NoMemory, Shared, Text};
use std::alloc::Global;
use std::sync::Arc;
use std::test::Fail;

// The facets of a box by its corners: bit 0 of a corner's number is set at the far side in x, bit 1 in y, bit 2 in z.
const FACETS: [[u8; 3]; 12] = [
    [0, 2, 1],
    [1, 2, 3],
    [4, 5, 6],
    [5, 7, 6],
    [0, 1, 4],
    [1, 5, 4],
    [2, 6, 3],
    [3, 6, 7],
    [0, 4, 2],
    [2, 4, 6],
    [1, 3, 5],
    [3, 7, 5],
];

fn put_corner(text: &mut Vec<u8>, number: u8, top: &[u8]) -> Result<(), NoMemory> {
    text.extend_from_slice(b"vertex ")?;
    text.extend_from_slice(if number & 1 == 1 { b"0.8 " } else { b"0.0 " })?;
    text.extend_from_slice(if number & 2 == 2 { b"0.8 " } else { b"0.0 " })?;
    text.extend_from_slice(if number & 4 == 4 { top } else { b"0" })?;
    text.extend_from_slice(b"\n")?;
    Ok(())
}

fn put_facet(text: &mut Vec<u8>, corners: &[u8; 3], top: &[u8]) -> Result<(), NoMemory> {
    text.extend_from_slice(b"facet normal 0 0 0\nouter loop\n")?;
    put_corner(text, corners[0], top)?;
    put_corner(text, corners[1], top)?;
    put_corner(text, corners[2], top)?;
    text.extend_from_slice(b"endloop\nendfacet\n")?;
    Ok(())
}

// A box of 0.8 by 0.8 mm, of this height.
fn tall_box(alloc: Global, top: &[u8]) -> Result<Mesh, NoMemory> {
    let mut text = Vec::new(alloc);
    text.extend_from_slice(b"solid box\n")?;
    for corners in &FACETS {
        put_facet(&mut text, corners, top)?;
    }
    text.extend_from_slice(b"endsolid box\n")?;
    if text.len() > 1 << 28 {
        return Err(NoMemory);
    }
    match read_stl(alloc, &text) {
        Ok(mesh) => Ok(mesh),
        Err(_) => Err(NoMemory),
    }
}

// A probe with these answers, and then false.
fn answering(alloc: Global, answers: &[bool]) -> Result<ScriptedProbe, NoMemory>
    ensures polls { IfOk result (λ probe. probe_polls probe ≡ 0) }
    ensures raised { IfOk result (λ probe. probe_raised probe ≡ false) }
{
    Ok(ScriptedProbe::new(Vec::from_slice(alloc, answers)?))
}

// How many layers of 0.2 mm are sliced, if the work was not stopped, and after how many polls.
fn sliced(alloc: Global, top: &[u8], answers: &[bool]) -> Result<(Option<usize>, u32), NoMemory> {
    let mesh = tall_box(alloc, top)?;
    let heights = Heights {
        first: Nm(200_000),
        height: Nm(200_000),
    };
    let mut probe = answering(alloc, answers)?;
    match slice_batches(alloc, &mesh, 0, heights, &mut probe)? {
        Ran::Done(slices) => Ok((Some(slices.planes().len()), probe.polls())),
        Ran::Stopped => Ok((None, probe.polls())),
    }
}

#[test]
fn slices_come_in_batches_of_eight(rt: HostRuntime) -> Result<(), Fail> {
    let cases: [(&[u8], &[bool], Option<usize>, u32); 6] = [
        (b"6", &[], Some(30), 4),
        (b"6", &[false, false, true], None, 3),
        (b"6", &[true], None, 1),
        (b"6", &[false, false, false, false, true], Some(30), 4),
        (b"1.8", &[], Some(9), 2),
        (b"1.6", &[], Some(8), 1),
    ];
    for (top, answers, layers, polls) in &cases {
        let found = sliced(rt.alloc(), top, answers)?;
        assert_eq!(rt; found, (*layers, *polls), "{top:?} by {answers:?}");
    }
    Ok(())
}

// Nine layers, each of the same row of three cells, of which the middle one is filled in the layers from the lowest up to
// `below`, and all are in the highest one.
fn rows(alloc: Global, below: u8) -> Result<Planes, NoMemory>
    ensures long { IfOk result (λ ps. length ps ≡ 9) }
    ensures pairs { IfOk result (λ ps. AllPairs (λ p q. p.bounds ≡ q.bounds) ps) }
    ensures boxes { IfOk result (λ ps. HaveEqualBoxes ps ps) }
{
    let mut planes = Vec::new(alloc);
    for k in 0..9u8 {
        planes.push(row(alloc, k == 8, k < below)?)?;
    }
    Ok(Planes::of(planes))
}

fn row(alloc: Global, full: bool, middle: bool) -> Result<Plane, NoMemory>
    ensures { IfOk result (λ p. p.bounds ≡ record { x0 = pos 0; y0 = pos 0; cols = 3; rows = 1 }) }
{
    let bounds = Box2 {
        x0: 0,
        y0: 0,
        cols: 3,
        rows: 1,
    };
    let mut plane = Plane::empty(alloc, bounds)?;
    plane.set(0, 0, full);
    plane.set(1, 0, full || middle);
    plane.set(2, 0, full);
    Ok(plane)
}

// The cells that are filled, as a number of three bits, layer by layer.
fn numbers(alloc: Global, planes: &Planes) -> Result<Vec<u8>, NoMemory> {
    let mut numbers = Vec::new(alloc);
    for plane in planes.planes() {
        let low = if plane.get(0, 0) { 1 } else { 0 };
        let middle = if plane.get(1, 0) { 2 } else { 0 };
        let high = if plane.get(2, 0) { 4 } else { 0 };
        numbers.push(low + middle + high)?;
    }
    Ok(numbers)
}

#[test]
fn support_hangs_from_the_highest_layer(rt: HostRuntime) -> Result<(), Fail> {
    let alloc = rt.alloc();
    let cases: [(&str, u8, bool, bool, [u8; 9]); 4] = [
        ("off", 0, false, false, [0; 9]),
        ("over nothing", 0, true, false, [7, 7, 7, 7, 7, 7, 7, 7, 0]),
        ("over a part", 3, true, false, [5, 5, 5, 7, 7, 7, 7, 7, 0]),
        ("over the plate", 3, true, true, [5, 5, 5, 5, 5, 5, 5, 5, 0]),
    ];
    for (name, below, on, plate_only, wanted) in &cases {
        let slices = rows(alloc, *below)?;
        let mut probe = answering(alloc, &[])?;
        let found = support_batches(alloc, &slices, *on, *plate_only, &mut probe)?;
        assert_eq!(rt; probe.polls(), 2, "{name}");
        let Ran::Done(SupportSet { cells, strokes }) = found else {
            return Err(NoMemory.into());
        };
        let cells = numbers(alloc, &cells)?;
        assert_eq!(rt; cells.as_slice(), wanted.as_slice(), "{name}");
        assert_eq!(rt; strokes.lists().len(), 9, "{name}");
    }
    Ok(())
}

#[test]
fn support_stops_between_the_passes(rt: HostRuntime) -> Result<(), Fail> {
    let slices = rows(rt.alloc(), 0)?;
    let mut probe = answering(rt.alloc(), &[false, true])?;
    let found = support_batches(rt.alloc(), &slices, true, true, &mut probe)?;
    assert!(rt; matches!(found, Ran::Stopped));
    assert_eq!(rt; probe.polls(), 2);
    Ok(())
}

// The surfaces of nine rows, with one slice above a solid cell and none below.
fn prepared(alloc: Global, probe: &mut ScriptedProbe) -> Result<Option<Surfaces>, NoMemory>
    requires polls { probe_polls probe.old ≡ 0 }
    requires raised { probe_raised probe.old ≡ false }
{
    let slices = rows(alloc, 8)?;
    match surface_batches(alloc, &slices, &slices, 1, 0, probe)? {
        Ran::Done(sets) => Ok(Some(sets)),
        Ran::Stopped => Ok(None),
    }
}

#[test]
fn surfaces_have_one_top_layer(rt: HostRuntime) -> Result<(), Fail> {
    let mut probe = answering(rt.alloc(), &[])?;
    let Some(sets) = prepared(rt.alloc(), &mut probe)? else {
        return Err(NoMemory.into());
    };
    assert_eq!(rt; probe.polls(), 2);
    assert_eq!(rt; sets.sets().len(), 9);
    for (k, set) in sets.sets().iter().enumerate() {
        assert_eq!(rt; set.top.get(1, 0), k == 8, "top of layer {k}");
        assert_eq!(rt; set.sparse.get(1, 0), k < 8, "sparse cells of layer {k}");
    }
    Ok(())
}

fn stroke_counts(alloc: Global, lists: &StrokeLists) -> Result<Vec<usize>, NoMemory> {
    let mut counts = Vec::new(alloc);
    for strokes in lists.lists() {
        counts.push(strokes.strokes().len())?;
    }
    Ok(counts)
}

#[test]
fn each_layer_is_filled_and_the_highest_ironed(rt: HostRuntime) -> Result<(), Fail> {
    let alloc = rt.alloc();
    let mut first = answering(alloc, &[])?;
    let Some(sets) = prepared(alloc, &mut first)? else {
        return Err(NoMemory.into());
    };
    assert!(rt; sets.sets().len() <= 9);
    let mut probe = answering(alloc, &[])?;
    let Ran::Done(lists) = infill_batches(alloc, &sets, 100, &mut probe)? else {
        return Err(NoMemory.into());
    };
    let counts = stroke_counts(alloc, &lists)?;
    assert_eq!(rt; counts.as_slice(), [1; 9].as_slice(), "infill");
    assert_eq!(rt; probe.polls(), 2, "infill");
    let mut probe = answering(alloc, &[])?;
    let Ran::Done(lists) = ironing_batches(alloc, &sets, true, &mut probe)? else {
        return Err(NoMemory.into());
    };
    let counts = stroke_counts(alloc, &lists)?;
    assert_eq!(rt;
        counts.as_slice(),
        [0, 0, 0, 0, 0, 0, 0, 0, 1].as_slice(),
        "ironing"
    );
    assert_eq!(rt; probe.polls(), 2, "ironing");
    Ok(())
}

#[test]
fn each_layer_has_its_perimeters(rt: HostRuntime) -> Result<(), Fail> {
    let alloc = rt.alloc();
    let slices = rows(alloc, 8)?;
    let mut probe = answering(alloc, &[])?;
    let Ran::Done(set) = perimeter_batches(alloc, &slices, 1, &mut probe)? else {
        return Err(NoMemory.into());
    };
    let inner = numbers(alloc, &set.inner)?;
    assert_eq!(rt; inner.as_slice(), [0; 9].as_slice());
    assert_eq!(rt; set.loops.lists().len(), 9);
    assert!(rt;
        set.loops
            .lists()
            .iter()
            .all(|loops| loops.loops().len() == 1)
    );
    assert_eq!(rt; probe.polls(), 2);
    Ok(())
}

// A facet of 0.8 by 0.8 by 0.4 mm.
const SMALL: &[u8] =
    b"solid a\nfacet normal 0 0 0\nouter loop\nvertex 0 0 0\nvertex 0.8 0 0\nvertex 0 0.8 0.4\nendloop\nendfacet\nendsolid a\n";

fn load(plate: &mut Plate, alloc: Global) -> Result<(), NoMemory> {
    let bytes = Text::copy_of(alloc, SMALL)?;
    let name = Text::copy_of(alloc, b"a")?;
    if bytes.bytes().len() > 1 << 28 {
        return Err(NoMemory);
    }
    let block = Shared::of(Arc::new(alloc, Block::of(Text::copy_of(alloc, b"b")?, bytes))?);
    plate.edit(alloc, &Edit::Load { name, block })?;
    Ok(())
}

fn set_second(plate: &mut Plate, alloc: Global, key: &[u8], text: &[u8]) -> Result<(), NoMemory> {
    if text.len() > 1 << 28 {
        return Err(NoMemory);
    }
    let value = ValueText::of(Text::copy_of(alloc, text)?);
    let key = Text::copy_of(alloc, key)?;
    plate.edit(
        alloc,
        &Edit::Override {
            place: 1,
            key,
            value,
        },
    )?;
    Ok(())
}

// Two objects, the second with layers of 0.3 mm and the second tool.
fn pair(alloc: Global) -> Result<Plate, NoMemory> {
    let mut plate = Plate::blank(alloc)?;
    load(&mut plate, alloc)?;
    load(&mut plate, alloc)?;
    set_second(&mut plate, alloc, b"layer_height", b"0.3")?;
    set_second(&mut plate, alloc, b"extruder", b"2")?;
    Ok(plate)
}

fn layers(alloc: Global, plate: &Plate) -> Result<Vec<ObjectLayers>, NoMemory> {
    let mut layers = Vec::new(alloc);
    for place in plate.places() {
        if let Some(object) = place {
            layers.push(ObjectLayers::of(plate.config(), object))?;
        }
    }
    Ok(layers)
}

fn are_tools(heights: &[Tools], wanted: &[&[u8]]) -> bool {
    heights.len() == wanted.len()
        && heights
            .iter()
            .zip(wanted.iter())
            .all(|(tools, row)| tools.tools() == *row)
}

#[test]
fn each_height_has_its_tools(rt: HostRuntime) -> Result<(), Fail> {
    let alloc = rt.alloc();
    let plate = pair(alloc)?;
    let heights = tops(alloc, &plate)?;
    assert_eq!(rt; heights.len(), 3);
    let objects = layers(alloc, &plate)?;
    let mut probe = answering(alloc, &[])?;
    let Ran::Done(found) = tool_batches(alloc, &objects, &heights, &mut probe)? else {
        return Err(NoMemory.into());
    };
    assert!(rt; are_tools(&found, &[&[0, 1], &[0], &[1]]));
    assert_eq!(rt; probe.polls(), 1);
    Ok(())
}
