//! A script, and runs of it.
use pl_plater::{Status, plater};
use pl_ports::{OpenGate, Sink, Source, SteadySink, SteadySource};
use pl_units::Text;
use std::alloc::Global;
use std::sync::Wait;
use std::test::Fail;
use std::thread::Threads;

/// A script that loads a box of two layers, applies and exports: `examples/one_box.plater`.
pub(crate) const ONE_BOX: &[u8] =
    b"plater 1\ndata box\nsolid box\nfacet normal 0 0 0\nouter loop\nvertex 0 0 0\nvertex 0 0.8 0\nvertex 0.8 0 0\nendloop\nendfacet\nfacet normal 0 0 0\nouter loop\nvertex 0.8 0 0\nvertex 0 0.8 0\nvertex 0.8 0.8 0\nendloop\nendfacet\nfacet normal 0 0 0\nouter loop\nvertex 0 0 0.4\nvertex 0.8 0 0.4\nvertex 0 0.8 0.4\nendloop\nendfacet\nfacet normal 0 0 0\nouter loop\nvertex 0.8 0 0.4\nvertex 0.8 0.8 0.4\nvertex 0 0.8 0.4\nendloop\nendfacet\nfacet normal 0 0 0\nouter loop\nvertex 0 0 0\nvertex 0.8 0 0\nvertex 0 0 0.4\nendloop\nendfacet\nfacet normal 0 0 0\nouter loop\nvertex 0.8 0 0\nvertex 0.8 0 0.4\nvertex 0 0 0.4\nendloop\nendfacet\nfacet normal 0 0 0\nouter loop\nvertex 0 0.8 0\nvertex 0 0.8 0.4\nvertex 0.8 0.8 0\nendloop\nendfacet\nfacet normal 0 0 0\nouter loop\nvertex 0.8 0.8 0\nvertex 0 0.8 0.4\nvertex 0.8 0.8 0.4\nendloop\nendfacet\nfacet normal 0 0 0\nouter loop\nvertex 0 0 0\nvertex 0 0 0.4\nvertex 0 0.8 0\nendloop\nendfacet\nfacet normal 0 0 0\nouter loop\nvertex 0 0.8 0\nvertex 0 0 0.4\nvertex 0 0.8 0.4\nendloop\nendfacet\nfacet normal 0 0 0\nouter loop\nvertex 0.8 0 0\nvertex 0.8 0.8 0\nvertex 0.8 0 0.4\nendloop\nendfacet\nfacet normal 0 0 0\nouter loop\nvertex 0.8 0.8 0\nvertex 0.8 0.8 0.4\nvertex 0.8 0 0.4\nendloop\nendfacet\nendsolid box\n.end\n1 load cube box\n1 set perimeters 0\n1 set fill_density 100%\n1 set skirts 0\n1 apply\n1 export\n";

/// The status of the command `run` over this source and this sink.
pub(crate) fn run<R: Threads + Wait + Sync, S: Source, K: Sink>(
    rt: &R,
    alloc: Global,
    source: &mut S,
    sink: &mut K,
) -> Result<Status, Fail> {
    let mut words = Vec::new(alloc);
    words.push(format!(in alloc; "run")?)?;
    Ok(plater(rt, alloc, &words, source, sink, &OpenGate))
}

/// The whole transcript of the script.
pub(crate) fn transcript<R: Threads + Wait + Sync>(
    rt: &R,
    alloc: Global,
) -> Result<SteadySink, Fail> {
    let mut source = SteadySource::new(Text::copy_of(alloc, ONE_BOX)?);
    let mut sink = SteadySink::new(alloc);
    match run(rt, alloc, &mut source, &mut sink)? {
        Status::Done => Ok(sink),
        _ => Err("the run was not done".into()),
    }
}
