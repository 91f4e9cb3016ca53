//! Calls of the program, and what it wrote.
use pl_plater::{Status, plater};
use pl_ports::{Gate, SteadySink, SteadySource};
use pl_units::Text;
use std::alloc::Global;
use std::sync::Wait;
use std::test::Fail;
use std::thread::Threads;

/// A script, up to its commands: a block `part` with four facets.
pub(crate) const PART: &[u8] =
    b"data part\nsolid\nfacet normal 0 0 0 outer loop vertex 0 0 0 vertex 0 4 0 vertex 4 0 0 endloop endfacet\nfacet normal 0 0 0 outer loop vertex 0 0 0 vertex 4 0 0 vertex 0 0 2 endloop endfacet\nfacet normal 0 0 0 outer loop vertex 0 0 0 vertex 0 0 2 vertex 0 4 0 endloop endfacet\nfacet normal 0 0 0 outer loop vertex 4 0 0 vertex 0 4 0 vertex 0 0 2 endloop endfacet\nendsolid\n.end\n";

/// The texts one after another.
pub(crate) fn joined(alloc: Global, parts: &[&[u8]]) -> Result<Text, Fail> {
    let mut text = Text::copy_of(alloc, b"")?;
    for part in parts {
        text.append(part)?;
    }
    Ok(text)
}

/// The status of a call with these words, and what it writes where it reads this input.
pub(crate) fn call<R: Threads + Wait + Sync, G: Gate + Sync>(
    rt: &R,
    alloc: Global,
    words: &[&str],
    input: Text,
    gate: &G,
) -> Result<(Status, SteadySink), Fail> {
    let mut owned = Vec::new(alloc);
    for word in words {
        owned.push(format!(in alloc; "{word}")?)?;
    }
    let mut source = SteadySource::new(input);
    let mut sink = SteadySink::new(alloc);
    let status = plater(rt, alloc, &owned, &mut source, &mut sink, gate);
    Ok((status, sink))
}

/// What a run of this script writes, which has to be done.
pub(crate) fn transcript<R: Threads + Wait + Sync, G: Gate + Sync>(
    rt: &R,
    alloc: Global,
    script: Text,
    gate: &G,
) -> Result<SteadySink, Fail> {
    let (status, sink) = call(rt, alloc, &["run"], script, gate)?;
    match status {
        Status::Done => Ok(sink),
        _ => Err("the run was not done".into()),
    }
}

/// What stands behind the first place of a part in a text.
pub(crate) fn after<'a>(text: &'a [u8], part: &[u8]) -> Option<&'a [u8]> {
    for at in 0..text.len() {
        if let Some(rest) = text[at..].strip_prefix(part) {
            return Some(rest);
        }
    }
    None
}

/// The G-code of the first export in a transcript.
pub(crate) fn gcode_in(transcript: &[u8]) -> Option<&[u8]> {
    let rest = after(transcript, b" = gcode ")?;
    let end = rest.iter().position(|byte| *byte == b'\n')?;
    let length = str::from_utf8(&rest[..end]).ok()?.parse::<usize>().ok()?;
    rest[end + 1..].get(..length)
}
