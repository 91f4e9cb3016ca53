use crate::{Facet, Point3, StlFault, read_stl};
use pl_units::{Nm, Refusal};
use std::test::Fail;

// A box of 40 by 13.5 by 11.545678 mm, in twelve facets.
static BOX: &[u8] = b"solid box
facet normal 0 0 -1 outer loop
vertex 0 7 0.8
vertex 0 20.5 0.8
vertex 40 20.5 0.8
endloop endfacet
facet normal 0 0 -1 outer loop
vertex 0 7 0.8
vertex 40 20.5 0.8
vertex 40 7 0.8
endloop endfacet
facet normal 0 0 1 outer loop
vertex 0 7 12.345678
vertex 40 7 12.345678
vertex 40 20.5 12.345678
endloop endfacet
facet normal 0 0 1 outer loop
vertex 0 7 12.345678
vertex 40 20.5 12.345678
vertex 0 20.5 12.345678
endloop endfacet
facet normal 0 -1 0 outer loop
vertex 0 7 0.8
vertex 40 7 0.8
vertex 40 7 12.345678
endloop endfacet
facet normal 0 -1 0 outer loop
vertex 0 7 0.8
vertex 40 7 12.345678
vertex 0 7 12.345678
endloop endfacet
facet normal 0 1 0 outer loop
vertex 0 20.5 0.8
vertex 0 20.5 12.345678
vertex 40 20.5 12.345678
endloop endfacet
facet normal 0 1 0 outer loop
vertex 0 20.5 0.8
vertex 40 20.5 12.345678
vertex 40 20.5 0.8
endloop endfacet
facet normal -1 0 0 outer loop
vertex 0 7 0.8
vertex 0 7 12.345678
vertex 0 20.5 12.345678
endloop endfacet
facet normal -1 0 0 outer loop
vertex 0 7 0.8
vertex 0 20.5 12.345678
vertex 0 20.5 0.8
endloop endfacet
facet normal 1 0 0 outer loop
vertex 40 7 0.8
vertex 40 20.5 0.8
vertex 40 20.5 12.345678
endloop endfacet
facet normal 1 0 0 outer loop
vertex 40 7 0.8
vertex 40 20.5 12.345678
vertex 40 7 12.345678
endloop endfacet
endsolid box
";

fn point(x: i64, y: i64, z: i64) -> Point3 {
    Point3 {
        x: Nm(x),
        y: Nm(y),
        z: Nm(z),
    }
}

#[test]
fn a_box_is_read_with_its_coordinates(rt: HostRuntime) -> Result<(), Fail> {
    let mesh = read_stl(rt.alloc(), BOX).ok().ok_or("refused")?;
    let facets = mesh.facets();
    assert_eq!(rt; facets.len(), 12);
    let first = Facet {
        a: point(0, 7_000_000, 800_000),
        b: point(0, 20_500_000, 800_000),
        c: point(40_000_000, 20_500_000, 800_000),
    };
    let last = Facet {
        a: point(40_000_000, 7_000_000, 800_000),
        b: point(40_000_000, 20_500_000, 12_345_678),
        c: point(40_000_000, 7_000_000, 12_345_678),
    };
    assert!(rt; facets.first() == Some(&first));
    assert!(rt; facets.last() == Some(&last));
    Ok(())
}

// Two solids, in letters of either case.
static TWO: &[u8] = b"SOLID facet one
Facet Normal nan nan nan
Outer Loop
Vertex 1.000000e+01 0 0
Vertex 0 1 0
Vertex 0 0 1
EndLoop
EndFacet
EndSolid one of two
solid
facet normal nan nan nan outer loop vertex -1 0 0 vertex 0 1 0 vertex 0 0 .5 endloop endfacet
ENDSOLID";

#[test]
fn two_solids_are_one_mesh(rt: HostRuntime) -> Result<(), Fail> {
    let mesh = read_stl(rt.alloc(), TWO).ok().ok_or("refused")?;
    let facets = mesh.facets();
    assert_eq!(rt; facets.len(), 2);
    let first = Facet {
        a: point(10_000_000, 0, 0),
        b: point(0, 1_000_000, 0),
        c: point(0, 0, 1_000_000),
    };
    let last = Facet {
        a: point(-1_000_000, 0, 0),
        b: point(0, 1_000_000, 0),
        c: point(0, 0, 500_000),
    };
    assert!(rt; facets.first() == Some(&first));
    assert!(rt; facets.last() == Some(&last));
    Ok(())
}

// Texts, and the line and the fault of the first breach of each.
static BREACHES: [(&str, u32, StlFault); 14] = [
    ("", 1, StlFault::NoFacet),
    (" \n \n", 2, StlFault::NoFacet),
    ("solid a\nendsolid a\n", 2, StlFault::NoFacet),
    ("solid x", 1, StlFault::Cut),
    (
        "solid a\nfacet normal 0 0 1\nouter loop\nvertex 0 0 0\nvertex 1 0 0\nvertex 0 1",
        6,
        StlFault::Cut,
    ),
    (
        "solid a\nfacet normal 0 0 1\nouter loop\nvertex 0 0 0\nvertex 1 0 0\nvertex 0 1\n",
        6,
        StlFault::Cut,
    ),
    ("solids", 1, StlFault::BadToken),
    (
        "solid a\n\nendsolid b endfacet\nfacet",
        4,
        StlFault::BadToken,
    ),
    ("solid\n\n\nfacet normel 0 0 1", 4, StlFault::BadToken),
    ("solid\nfacet normal 0 0 1 loop", 2, StlFault::BadToken),
    (
        "solid\nfacet normal 0 0 1\nouter loop vertex\n0 vertex 1",
        4,
        StlFault::BadNumber,
    ),
    (
        "solid\nfacet normal 0 0 1 outer loop\nvertex 0 1e0x",
        3,
        StlFault::BadNumber,
    ),
    (
        "solid\nfacet normal 0 0 1 outer loop\nvertex 0 1000",
        3,
        StlFault::Cut,
    ),
    (
        "solid\nfacet normal 0 0 1 outer loop\nvertex 0 1000.000001",
        3,
        StlFault::TooFar,
    ),
];

#[test]
fn a_text_is_refused_at_its_first_breach(rt: HostRuntime) {
    for (text, line, fault) in &BREACHES {
        let bytes = text.as_bytes();
        if bytes.len() <= 1000 {
            let refusal = Refusal::Fault {
                line: *line,
                fault: *fault,
            };
            assert!(rt;
                read_stl(rt.alloc(), bytes).err() == Some(refusal),
                "{text}"
            );
        }
    }
}

#[test]
fn a_fault_prints_its_word(rt: HostRuntime) -> Result<(), Fail> {
    let table = [
        (StlFault::BadToken, "BadToken"),
        (StlFault::BadNumber, "BadNumber"),
        (StlFault::TooFar, "TooFar"),
        (StlFault::TooManyFacets, "TooManyFacets"),
        (StlFault::Cut, "Cut"),
        (StlFault::NoFacet, "NoFacet"),
    ];
    for (fault, word) in &table {
        let printed = format!(in rt.alloc(); "{fault}")?;
        assert!(rt; printed.as_str() == *word);
    }
    Ok(())
}
