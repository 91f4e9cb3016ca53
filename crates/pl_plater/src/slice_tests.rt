//! What the command `slice` writes and answers, row by row.
use crate::bodies::{Corners, slice_text};
use crate::{Status, TopFault, plater, slice_once};
use pl_options::IniFault;
use pl_ports::{MemorySink, MemorySource, OpenGate, SteadySink, SteadySource};
use pl_script::ScriptFault;
use pl_stl::StlFault;
use pl_tech::Problem;
use pl_units::Text;
use std::test::Fail;

// A box of 0.8 by 0.8 by 0.4 mm.
const BOX: [Corners; 1] = [[
    b"0 0 0",
    b"0.8 0 0",
    b"0 0.8 0",
    b"0.8 0.8 0",
    b"0 0 0.4",
    b"0.8 0 0.4",
    b"0 0.8 0.4",
    b"0.8 0.8 0.4",
]];

const SETTINGS: &[u8] = b"perimeters = 0\nfill_density = 100%\nskirts = 0\n";

// What it is printed as with these settings.
const GCODE: &[u8] =
    b"; headless plater\nG21\nG90\nM83\nM140 S60\nM104 S215\nM190 S60\nM109 S215\n;Z 0.200\nG1 Z0.200 F7800\n;OBJECT 0 0\nG1 X0.000 Y0.200 F7800\nG1 F4800\nG1 X0.800 Y0.200 E0.02660\nG1 X0.800 Y0.600 F7800\nG1 F4800\nG1 X0.000 Y0.600 E0.02660\n;Z 0.400\nG1 Z0.400 F7800\nM140 S60\nM104 S210\n;OBJECT 0 0\nG1 X0.200 Y0.000 F7800\nG1 F4800\nG1 X0.200 Y0.800 E0.02660\nG1 X0.600 Y0.800 F7800\nG1 F4800\nG1 X0.600 Y0.000 E0.02660\nM104 S0\nM140 S0\n";

#[test]
fn a_box_gives_its_gcode(rt: HostRuntime) -> Result<(), Fail> {
    let alloc = rt.alloc();
    let mut words = Vec::new(alloc);
    words.push(format!(in alloc; "slice")?)?;
    let mut source = SteadySource::new(slice_text(alloc, SETTINGS, &BOX)?);
    let mut sink = SteadySink::new(alloc);
    assert!(rt; plater(&rt, alloc, &words, &mut source, &mut sink, &OpenGate) == Status::Done);
    assert!(rt; sink.held() == GCODE);
    Ok(())
}

// A text that is refused, the line, and the fault.
const BREACHES: [(&[u8], u32, TopFault); 8] = [
    (b"", 1, TopFault::Script(ScriptFault::NoHead)),
    (
        b"plater 1\ndata settings\nperimeters = 0\nfill_density = 100%\nskirts = 0\n.end\n",
        6,
        TopFault::Script(ScriptFault::NoData),
    ),
    (
        b"plater 1\ndata mesh\nsolid x\n.end\n1 apply\n",
        5,
        TopFault::Script(ScriptFault::BadLine),
    ),
    (
        b"plater 1\ndata mesh\nsolid x\n.end\n",
        3,
        TopFault::Stl(StlFault::Cut),
    ),
    (
        b"plater 1\ndata settings\nperimeters 3\n.end\ndata mesh\nsolid x\n.end\n",
        3,
        TopFault::Ini(IniFault::NoEquals),
    ),
    (
        b"plater 1\ndata mesh\nsolid x\n.end\ndata settings\nperimeters 3\n.end\n",
        6,
        TopFault::Ini(IniFault::NoEquals),
    ),
    (
        b"plater 1\ndata mesh\nsolid\nfacet normal 0 0 0 outer loop vertex 0 0 0 vertex 300 0 0 vertex 0 4 0.4 endloop endfacet\nendsolid\n.end\n",
        2,
        TopFault::Problem(Problem::OutOfBed(0, 0)),
    ),
    (
        b"plater 1\n\ndata settings\nnotes = a box\n.end\n# with a mesh that has no facet\ndata mesh\nsolid\nendsolid\n.end\n",
        9,
        TopFault::Stl(StlFault::NoFacet),
    ),
];

#[test]
fn the_first_fault_is_refused_at_its_line(rt: HostRuntime) -> Result<(), Fail> {
    for (bytes, line, fault) in &BREACHES {
        let mut source = SteadySource::new(Text::copy_of(rt.alloc(), bytes)?);
        let mut sink = SteadySink::new(rt.alloc());
        let wanted = Status::Refused {
            line: *line,
            fault: *fault,
        };
        assert!(rt;
            slice_once(rt.alloc(), &mut source, &mut sink) == wanted,
            "{line} {fault}"
        );
        assert!(rt; sink.held().is_empty());
    }
    Ok(())
}

#[test]
fn a_failing_end_has_its_status(rt: HostRuntime) -> Result<(), Fail> {
    let alloc = rt.alloc();
    let mut sink = MemorySink::new(alloc, 64, Vec::from_slice(alloc, &[2])?);
    let mut source = SteadySource::new(slice_text(alloc, SETTINGS, &BOX)?);
    assert!(rt; slice_once(alloc, &mut source, &mut sink) == Status::WriteFault);
    assert!(rt; sink.held() == &GCODE[..128]);

    let mut sink = SteadySink::new(alloc);
    let mut source = MemorySource::new(
        slice_text(alloc, SETTINGS, &BOX)?,
        16,
        Vec::from_slice(alloc, &[1])?,
    );
    assert!(rt; slice_once(alloc, &mut source, &mut sink) == Status::ReadFault);
    assert!(rt; sink.held().is_empty());
    Ok(())
}
