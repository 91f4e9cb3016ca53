//! Want of memory between the polls of a job. With ample memory the test here passes; it fails where memory of the first batch is
//! refused, as by `rt try --test --fail-alloc`.
use pl_edit::{Block, Edit};
use pl_fff::Fff;
use pl_model::Plate;
use pl_ports::ScriptedProbe;
use pl_tech::{Kept, Ran, Technology};
use pl_units::{NoMemory, Shared, Text};
use std::alloc::Global;
use std::sync::Arc;
use std::test::Fail;
use std::thread::Threads;

// A box of 0.8 by 0.8 by 6 mm.
const BOX: &[u8] =
    b"solid box\nfacet normal 0 0 0 outer loop vertex 0 0 0 vertex 0 0.8 0 vertex 0.8 0 0 endloop endfacet\nfacet normal 0 0 0 outer loop vertex 0.8 0 0 vertex 0 0.8 0 vertex 0.8 0.8 0 endloop endfacet\nfacet normal 0 0 0 outer loop vertex 0 0 6 vertex 0.8 0 6 vertex 0 0.8 6 endloop endfacet\nfacet normal 0 0 0 outer loop vertex 0.8 0 6 vertex 0.8 0.8 6 vertex 0 0.8 6 endloop endfacet\nfacet normal 0 0 0 outer loop vertex 0 0 0 vertex 0.8 0 0 vertex 0 0 6 endloop endfacet\nfacet normal 0 0 0 outer loop vertex 0.8 0 0 vertex 0.8 0 6 vertex 0 0 6 endloop endfacet\nfacet normal 0 0 0 outer loop vertex 0 0.8 0 vertex 0 0.8 6 vertex 0.8 0.8 0 endloop endfacet\nfacet normal 0 0 0 outer loop vertex 0.8 0.8 0 vertex 0 0.8 6 vertex 0.8 0.8 6 endloop endfacet\nfacet normal 0 0 0 outer loop vertex 0 0 0 vertex 0 0 6 vertex 0 0.8 0 endloop endfacet\nfacet normal 0 0 0 outer loop vertex 0 0.8 0 vertex 0 0 6 vertex 0 0.8 6 endloop endfacet\nfacet normal 0 0 0 outer loop vertex 0.8 0 0 vertex 0.8 0.8 0 vertex 0.8 0 6 endloop endfacet\nfacet normal 0 0 0 outer loop vertex 0.8 0.8 0 vertex 0.8 0.8 6 vertex 0.8 0 6 endloop endfacet\nendsolid box\n";

// A plate with the box, which has thirty layers of 0.2 mm.
fn boxed(alloc: Global) -> Result<Plate, NoMemory> {
    if BOX.len() > 1 << 28 {
        return Err(NoMemory);
    }
    let block = Block::of(Text::copy_of(alloc, b"box")?, Text::copy_of(alloc, BOX)?);
    let edit = Edit::Load {
        name: Text::copy_of(alloc, b"a")?,
        block: Shared::of(Arc::new(alloc, block)?),
    };
    let mut plate = Plate::blank(alloc)?;
    let _ = plate.edit(alloc, &edit)?;
    Ok(plate)
}

// What a run answers.
#[derive(Debug, PartialEq, Eq, Clone, Copy)]
enum Answer {
    Done,
    Stopped,
    NoMemory,
}

// What the job of the first slot of a plate without a problem answers where its second poll is answered true, and after how many
// polls. Want of memory before the run is the error.
fn first_run<T: Technology, R: Threads + Sync>(
    rt: &R,
    alloc: Global,
    plate: &T::Plate,
) -> Result<Option<(Answer, u32)>, NoMemory> {
    let Some(slot) = T::present(plate).least() else {
        return Ok(None);
    };
    if T::problem(plate).is_some() {
        return Ok(None);
    }
    let kept = Kept::new(alloc)?;
    let job = T::job(alloc, plate, slot, &kept)?;
    let mut probe = ScriptedProbe::new(Vec::from_slice(alloc, &[false, true])?);
    let answer = match T::run(rt, alloc, &mut T::bench(), job, &mut probe) {
        Ok(Ran::Done(_)) => Answer::Done,
        Ok(Ran::Stopped) => Answer::Stopped,
        Err(NoMemory) => Answer::NoMemory,
    };
    Ok(Some((answer, probe.polls())))
}

// The same of the slices of the box.
fn sliced<R: Threads + Sync>(rt: &R, alloc: Global) -> Result<Option<(Answer, u32)>, NoMemory> {
    let plate = boxed(alloc)?;
    first_run::<Fff, R>(rt, alloc, &plate)
}

#[test]
fn the_first_batch_takes_its_memory_before_the_second_poll(rt: HostRuntime) {
    let Ok(found) = sliced(&rt, rt.alloc()) else {
        return;
    };
    assert!(rt; found != Some((Answer::NoMemory, 1)));
    assert!(rt;
        matches!(
            found,
            Some((Answer::Stopped, 2)) | Some((Answer::NoMemory, 0))
        ),
        "{found:?}"
    );
}
