//! Each of the thirty options, set while each slot is under way.
ghost use Rattle.std.specs.Thread.{IsSync};

use crate::plants::{FACET, load, set};
use crate::trial::made;
use pl_edit::{Edit, EditReply};
use pl_fff::Fff;
use pl_keys::{StepMask, direct_steps, key_of};
use pl_machine::{Answer, Command, Reply};
use pl_units::NoMemory;
use std::alloc::Global;
use std::sync::Arc;
use std::test::Fail;
use std::thread::Threads;

// The slots of a plate with one object, at place 0: its six, tower, skirt, brim and export.
const SLOTS: [u8; 10] = [0, 1, 2, 3, 4, 5, 96, 97, 98, 99];

// Options that touch the same steps directly, each with a value that is not its default, and those of the ten slots that such a
// change touches. So many results are late, where each option is set while each of the ten slots is under way.
struct Group {
    name: &'static str,
    steps: &'static [u8],
    options: &'static [(&'static [u8], &'static [u8])],
    touched: &'static [u8],
    late: usize,
}

const GROUPS: [Group; 11] = [
    Group {
        name: "slice",
        steps: &[0],
        options: &[(b"layer_height", b"0.3"), (b"first_layer_height", b"0.3")],
        touched: &[0, 1, 2, 3, 4, 5, 96, 97, 98, 99],
        late: 20,
    },
    Group {
        name: "perimeters",
        steps: &[1],
        options: &[(b"perimeters", b"3")],
        touched: &[1, 2, 3, 4, 96, 97, 98, 99],
        late: 8,
    },
    Group {
        name: "prepare",
        steps: &[2],
        options: &[(b"top_solid_layers", b"5"), (b"bottom_solid_layers", b"4")],
        touched: &[2, 3, 4, 96, 97, 98, 99],
        late: 14,
    },
    Group {
        name: "infill",
        steps: &[3],
        options: &[(b"fill_density", b"30%")],
        touched: &[3, 4, 96, 97, 98, 99],
        late: 6,
    },
    Group {
        name: "ironing",
        steps: &[4],
        options: &[(b"ironing", b"1")],
        touched: &[4, 96, 99],
        late: 3,
    },
    Group {
        name: "support",
        steps: &[5],
        options: &[
            (b"support_material", b"1"),
            (b"support_material_buildplate_only", b"1"),
        ],
        touched: &[5, 96, 97, 98, 99],
        late: 10,
    },
    Group {
        name: "tower",
        steps: &[6],
        options: &[
            (b"extruder", b"2"),
            (b"wipe_tower", b"1"),
            (b"wipe_tower_x", b"100"),
            (b"wipe_tower_y", b"100"),
            (b"wipe_tower_width", b"30"),
        ],
        touched: &[96, 99],
        late: 10,
    },
    Group {
        name: "skirt",
        steps: &[7],
        options: &[
            (b"skirts", b"2"),
            (b"skirt_distance", b"3"),
            (b"skirt_height", b"2"),
        ],
        touched: &[97, 98, 99],
        late: 9,
    },
    Group {
        name: "skirt and brim",
        steps: &[7, 8],
        options: &[(b"brim_width", b"2")],
        touched: &[97, 98, 99],
        late: 3,
    },
    Group {
        name: "export",
        steps: &[9],
        options: &[
            (b"perimeter_speed", b"30"),
            (b"infill_speed", b"60"),
            (b"travel_speed", b"100"),
            (b"temperature", b"200"),
            (b"first_layer_temperature", b"205"),
            (b"bed_temperature", b"50"),
            (b"first_layer_bed_temperature", b"55"),
            (b"filament_diameter", b"2.85"),
            (b"extrusion_multiplier", b"0.9"),
            (b"start_gcode", b"G28"),
            (b"end_gcode", b"M84"),
        ],
        touched: &[99],
        late: 11,
    },
    Group {
        name: "none",
        steps: &[],
        options: &[(b"notes", b"two")],
        touched: &[],
        late: 0,
    },
];

// The set of these steps.
fn steps_of(numbers: &[u8]) -> StepMask {
    let mut steps = StepMask::empty();
    for number in numbers {
        if *number < 10 {
            steps = steps.with(*number);
        }
    }
    steps
}

#[test]
fn each_option_stands_once_in_the_groups(rt: HostRuntime) -> Result<(), Fail> {
    let mut keys = Vec::new(rt.alloc());
    for group in &GROUPS {
        let name = group.name;
        for (option, _) in group.options {
            let key = key_of(option).ok_or("no option")?;
            assert!(rt; direct_steps(key) == steps_of(group.steps), "{name}");
            assert!(rt; !keys.contains(&key), "{name}");
            keys.push(key)?;
        }
    }
    assert_eq!(rt; keys.len(), 30);
    Ok(())
}

// Session 1 loads the facet and applies.
fn loads(alloc: Global) -> Result<Vec<Arc<Command<Edit>>>, NoMemory> {
    let commands = vec![in alloc;
        Arc::new(alloc, Command::Edit(load(alloc, FACET)?))?,
        Arc::new(alloc, Command::Apply)?,
    ]?;
    Ok(commands)
}

// Session 1 sets an option and applies.
fn changes(alloc: Global, key: &[u8], text: &[u8]) -> Result<Vec<Arc<Command<Edit>>>, NoMemory> {
    let commands = vec![in alloc;
        Arc::new(alloc, Command::Edit(set(alloc, key, text)?))?,
        Arc::new(alloc, Command::Apply)?,
    ]?;
    Ok(commands)
}

// Whether the option was set, and the apply found another plate.
fn are_taken(answers: &[Answer<Fff>]) -> bool {
    matches!(
        answers,
        [
            Answer::Now(Reply::Edited(EditReply::Done)),
            Answer::Now(Reply::Changed | Reply::Invalidated(_)),
        ]
    )
}

// The epochs of the slot's result, where it is late, if worker 1 starts the slot when those below it are done, and session 1 sets the
// option meanwhile and applies.
fn late_at<R: Threads + Sync>(
    rt: &R,
    alloc: Global,
    slot: u8,
    key: &[u8],
    text: &[u8],
) -> Result<Option<(u64, u64)>, Fail>
    requires { IsSync R.row }
{
    let loads = loads(alloc)?;
    let changes = changes(alloc, key, text)?;
    match made::<Fff, R>(rt, alloc, &loads, slot, &changes, None)? {
        (Some(outcome), _) if are_taken(&outcome.answers) => Ok(outcome.late),
        _ => Err("the slot was not started, or the option not set".into()),
    }
}

// Those of the ten slots whose results are late, at epoch 0 where epoch 1 had come; the results of the others are published.
fn late_slots<R: Threads + Sync>(
    rt: &R,
    alloc: Global,
    key: &[u8],
    text: &[u8],
) -> Result<Vec<u8>, Fail>
    requires { IsSync R.row }
{
    let mut late = Vec::new(alloc);
    for slot in &SLOTS {
        match late_at(rt, alloc, *slot, key, text)? {
            Some((0, 1)) => late.push(*slot)?,
            None => (),
            Some(_) => return Err("other epochs".into()),
        }
    }
    Ok(late)
}

#[test]
fn a_result_is_late_exactly_where_an_option_touches_its_slot(rt: HostRuntime) -> Result<(), Fail> {
    let alloc = rt.alloc();
    for group in &GROUPS {
        let name = group.name;
        let mut late = Vec::new(alloc);
        for (key, text) in group.options {
            let slots = late_slots(&rt, alloc, key, text)?;
            assert!(rt; slots.as_slice() == group.touched, "{name}: {slots:?}");
            late.extend_from_slice(&slots)?;
        }
        assert_eq!(rt; late.len(), group.late, "{name}");
    }
    Ok(())
}
