//! Texts that mean a plate, and texts that mean none.
use crate::{SliceFault, read_sliced};
use pl_model::Plate;
use pl_options::{IniFault, Key, Value};
use pl_script::ScriptFault;
use pl_stl::StlFault;
use pl_tech::Problem;
use pl_units::Refusal;
use std::alloc::Global;
use std::test::Fail;

// A block of eleven lines: a facet of 4 by 4 by 0.4 mm.
const SMALL: &[u8] =
    b"data mesh\nsolid a\nfacet normal 0 0 0\nouter loop\nvertex 0 0 0\nvertex 4 0 0\nvertex 0 4 0.4\nendloop\nendfacet\nendsolid a\n.end\n";

// A facet of 300 by 4 by 0.4 mm, which leaves the bed.
const WIDE: &[u8] =
    b"data mesh\nsolid a\nfacet normal 0 0 0\nouter loop\nvertex 0 0 0\nvertex 300 0 0\nvertex 0 4 0.4\nendloop\nendfacet\nendsolid a\n.end\n";

const SETTINGS: &[u8] = b"data settings\nperimeters = 5\n.end\n";

// What is read of two texts together.
fn read(
    alloc: Global,
    first: &[u8],
    second: &[u8],
) -> Result<Result<Plate, Refusal<SliceFault>>, Fail> {
    let mut text = Vec::new(alloc);
    text.extend_from_slice(first)?;
    text.extend_from_slice(second)?;
    if text.len() > 1_000_000 {
        return Err(Fail::from("a long text"));
    }
    Ok(read_sliced(alloc, &text))
}

// Whether two texts together are refused by this fault at this line.
fn is_refused(
    alloc: Global,
    first: &[u8],
    second: &[u8],
    line: u32,
    fault: SliceFault,
) -> Result<bool, Fail> {
    match read(alloc, first, second)? {
        Ok(_) => Ok(false),
        Err(refusal) => Ok(refusal == Refusal::Fault { line, fault }),
    }
}

#[test]
fn faults_of_lines_are_named_at_their_lines(rt: HostRuntime) -> Result<(), Fail> {
    let rows: [(&[u8], &[u8], u32, ScriptFault); 19] = [
        (b"", b"", 1, ScriptFault::NoHead),
        (b"plater 2\n", SMALL, 1, ScriptFault::NoHead),
        (b"plater 1\n", b"", 1, ScriptFault::NoData),
        (b"plater 1\n", b"\n# a\n", 3, ScriptFault::NoData),
        (b"plater 1\n", SETTINGS, 4, ScriptFault::NoData),
        (
            b"plater 1\n",
            b"data settings\nperimeters 3\n.end",
            4,
            ScriptFault::NoData,
        ),
        (b"plater 1\nworkers 0\n", SMALL, 2, ScriptFault::BadLine),
        (b"plater 1\n1 apply\n", SMALL, 2, ScriptFault::BadLine),
        (b"plater 1\ndata\n.end\n", SMALL, 2, ScriptFault::BadLine),
        (b"plater 1\ndata mesh a\n", SMALL, 2, ScriptFault::BadLine),
        (b"plater 1\ndata me/sh\n", SMALL, 2, ScriptFault::BadLine),
        (b"plater 1\ndata other\n", b"", 2, ScriptFault::BadLine),
        (
            b"plater 1\ndata Mesh\n.end\n",
            SMALL,
            2,
            ScriptFault::BadLine,
        ),
        (
            b"plater 1\ndata mesh\n.end\n",
            SMALL,
            4,
            ScriptFault::SameData,
        ),
        (
            b"plater 1\ndata settings\n.end\n",
            b"data settings\n",
            4,
            ScriptFault::SameData,
        ),
        (
            b"plater 1\ndata mesh\n",
            b"solid x\n",
            2,
            ScriptFault::CutData,
        ),
        (
            b"plater 1\ndata settings\n",
            b"data other\n",
            2,
            ScriptFault::CutData,
        ),
        (
            b"plater 1\ndata mesh\nsolid x\n.end\n",
            b"data settings\nperimeters 3\n.end\nx\n",
            8,
            ScriptFault::BadLine,
        ),
        (
            b"plater 1\ndata mesh\n.end\n",
            b".end\n",
            4,
            ScriptFault::BadLine,
        ),
    ];
    for (first, second, line, fault) in rows {
        let refused = is_refused(rt.alloc(), first, second, line, SliceFault::Script(fault))?;
        assert!(rt; refused, "{fault:?} at {line}");
    }
    Ok(())
}

#[test]
fn faults_of_blocks_and_problems_are_named_in_order(rt: HostRuntime) -> Result<(), Fail> {
    let cut = SliceFault::Stl(StlFault::Cut);
    let no_equals = SliceFault::Ini(IniFault::NoEquals);
    let out = SliceFault::Problem(Problem::OutOfBed(0, 0));
    let rows: [(&[u8], &[u8], u32, SliceFault); 8] = [
        (b"plater 1\n", b"data mesh\nsolid x\n.end\n", 3, cut),
        (
            b"plater 1\n",
            b"data mesh\n.end\n",
            3,
            SliceFault::Stl(StlFault::NoFacet),
        ),
        (
            b"plater 1\ndata settings\nperimeters 3\n.end\n",
            SMALL,
            3,
            no_equals,
        ),
        (
            b"plater 1\ndata settings\nperimeters 3\n.end\n",
            b"data mesh\nsolid x\n.end\n",
            3,
            no_equals,
        ),
        (
            b"plater 1\ndata mesh\nsolid x\n.end\n",
            b"# a\ndata settings\n\nperimeters 3\n.end\n",
            8,
            no_equals,
        ),
        (b"plater 1\n", WIDE, 2, out),
        (b"plater 1\ndata settings\n.end\n\n", WIDE, 5, out),
        (
            b"plater 1\ndata settings\nperimeters 3\n.end\n",
            WIDE,
            3,
            no_equals,
        ),
    ];
    for (first, second, line, fault) in rows {
        let refused = is_refused(rt.alloc(), first, second, line, fault)?;
        assert!(rt; refused, "{fault:?} at {line}");
    }
    Ok(())
}

// Whether a plate has five perimeters and the mesh in its first place.
fn is_meant(plate: &Plate) -> bool {
    match plate.object(0) {
        Some(object) => {
            object.name.bytes() == b"mesh".as_slice()
                && plate.config().get(Key::Perimeters).same(&Value::Whole(5))
        }
        None => false,
    }
}

#[test]
fn blocks_mean_a_plate_in_any_order(rt: HostRuntime) -> Result<(), Fail> {
    let one = read(
        rt.alloc(),
        b"plater 1\r\ndata settings\r\nperimeters=5\r\n.end\r\n# a\n",
        SMALL,
    )?;
    let one = one.ok().ok_or("refused")?;
    let other = read(
        rt.alloc(),
        b"plater 1\n\ndata mesh\nsolid b\nfacet normal 0 0 0\nouter loop\nvertex 0 0 0\nvertex 4 0 0\nvertex 0 4 0.4\nendloop\nendfacet\nendsolid b\n.end\n",
        SETTINGS,
    )?;
    let other = other.ok().ok_or("refused")?;
    assert!(rt; is_meant(&one) && one.same(&other));
    let plain = read(rt.alloc(), b"plater 1\n", SMALL)?;
    let plain = plain.ok().ok_or("refused")?;
    assert!(rt; !is_meant(&plain) && !plain.same(&one));
    Ok(())
}

#[test]
fn faults_are_told_by_the_words_of_their_parts(rt: HostRuntime) -> Result<(), Fail> {
    let rows = [
        (SliceFault::Script(ScriptFault::NoData), "NoData"),
        (SliceFault::Ini(IniFault::NoEquals), "NoEquals"),
        (SliceFault::Stl(StlFault::Cut), "Cut"),
        (SliceFault::Problem(Problem::OutOfBed(0, 1)), "OutOfBed 0 1"),
    ];
    for (fault, words) in rows {
        let text = format!(in rt.alloc(); "{fault}")?;
        assert_eq!(rt; text.as_str(), words);
    }
    Ok(())
}
