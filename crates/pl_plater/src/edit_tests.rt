//! What scripts write that change a plate again and again.
ghost use Rattle.std.specs.Prelude.{ℕ, ◌<◌, length};

use crate::Status;
use crate::tests::{run, with_box};
use pl_ports::SteadySink;
use pl_units::{Digits, Text, append_pieces};
use std::alloc::Global;
use std::test::Fail;

// Commands that the box is before, what their transcript has among its lines, and its end.
struct Tale {
    name: &'static str,
    commands: &'static [u8],
    lines: &'static [&'static [u8]],
    end: &'static [u8],
}

const TALES: [Tale; 9] = [
    Tale {
        name: "another density",
        commands: b"1 load a box\n1 apply\n1 export\n1 set fill_density 30%\n1 apply\n1 export\n",
        lines: &[
            b"\n2 s1 apply = changed\n3 s1 start 0.slice 0\n4 s1 done 0.slice 0\n5 s1 start 0.perimeters 0\n",
            b"\n25 s1 apply = invalidated 0.infill 0.ironing tower skirt brim export\n26 s1 start 0.infill 1\n27 s1 done 0.infill 1\n",
            b"\n36 s1 start export 1\n37 s1 done export 1\n38 s1 export = gcode ",
        ],
        end: b"\n39 s1 bye\nend 39 runs 16\n",
    },
    Tale {
        name: "notes, and perimeters that are set and set back",
        commands: b"1 load a box\n1 apply\n1 export\n1 set notes x\n1 apply\n1 set perimeters 3\n1 set perimeters 2\n1 apply\n",
        lines: &[
            b"\n24 s1 set notes x = ok\n25 s1 apply = changed\n26 s1 set perimeters 3 = ok\n27 s1 set perimeters 2 = ok\n28 s1 apply = unchanged\n",
        ],
        end: b"\n29 s1 bye\nend 29 runs 10\n",
    },
    Tale {
        name: "perimeters of one of two objects",
        commands: b"1 load a box\n1 load b box\n1 move 1 0 20 0\n1 apply\n1 export\n1 override 1 perimeters 3\n1 apply\n1 export\n",
        lines: &[
            b"\n4 s1 apply = changed\n5 s1 start 0.slice 0\n",
            b"\n15 s1 start 0.support 0\n16 s1 done 0.support 0\n17 s1 start 1.slice 0\n18 s1 done 1.slice 0\n",
            b"\n38 s1 override 1 perimeters 3 = ok\n39 s1 apply = invalidated 1.perimeters 1.prepare 1.infill 1.ironing tower skirt brim export\n40 s1 start 1.perimeters 1\n",
        ],
        end: b"\n57 s1 bye\nend 57 runs 24\n",
    },
    Tale {
        name: "an object that is loaded again",
        commands: b"1 load a box\n1 apply\n1 export\n1 delete 0\n1 load a box\n1 apply\n1 export\n",
        lines: &[
            b"\n24 s1 delete 0 = ok\n25 s1 load a box = object 0\n26 s1 apply = unchanged\n27 s1 export = gcode ",
        ],
        end: b"\n28 s1 bye\nend 28 runs 10\n",
    },
    Tale {
        name: "an object that is loaded again after an apply",
        commands: b"1 load a box\n1 apply\n1 export\n1 delete 0\n1 apply\n1 load a box\n1 apply\n1 export\n",
        lines: &[
            b"\n25 s1 apply = invalidated 0.slice 0.perimeters 0.prepare 0.infill 0.ironing 0.support tower skirt brim export\n26 s1 load a box = object 0\n27 s1 apply = changed\n28 s1 start 0.slice 1\n",
        ],
        end: b"\n49 s1 bye\nend 49 runs 20\n",
    },
    Tale {
        name: "two objects",
        commands: b"1 load a box\n1 load b box\n1 apply\n1 apply\n1 status",
        lines: &[
            b"1 s1 load a box = object 0\n2 s1 load b box = object 1\n3 s1 apply = changed\n4 s1 apply = unchanged\n5 s1 status = 0.slice=invalid 0.perimeters=invalid ",
            b" 0.support=invalid 1.slice=invalid ",
            b" 1.support=invalid tower=invalid skirt=invalid brim=invalid export=invalid\n",
        ],
        end: b"\n6 s1 bye\nend 6 runs 0\n",
    },
    Tale {
        name: "the seventeenth load",
        commands: b"1 load a box\n1 load a box\n1 load a box\n1 load a box\n1 load a box\n1 load a box\n1 load a box\n1 load a box\n1 load a box\n1 load a box\n1 load a box\n1 load a box\n1 load a box\n1 load a box\n1 load a box\n1 load a box\n1 load a box\n",
        lines: &[b"\n16 s1 load a box = object 15\n17 s1 load a box = refused FullObjects\n"],
        end: b"\n18 s1 bye\nend 18 runs 0\n",
    },
    Tale {
        name: "the seventeenth instance",
        commands: b"1 load a box\n1 copy 0 1 0\n1 copy 0 1 0\n1 copy 0 1 0\n1 copy 0 1 0\n1 copy 0 1 0\n1 copy 0 1 0\n1 copy 0 1 0\n1 copy 0 1 0\n1 copy 0 1 0\n1 copy 0 1 0\n1 copy 0 1 0\n1 copy 0 1 0\n1 copy 0 1 0\n1 copy 0 1 0\n1 copy 0 1 0\n1 copy 0 1 0\n",
        lines: &[b" = instance 15\n17 s1 copy 0 1.000000 0.000000 = refused FullInstances\n"],
        end: b"\n18 s1 bye\nend 18 runs 0\n",
    },
    Tale {
        name: "no object there, and no other instance",
        commands: b"1 load a box\n1 delete 3\n1 drop 0 0\n1 apply\n1 delete 3\n1 apply\n",
        lines: &[
            b"\n2 s1 delete 3 = refused NoObject\n3 s1 drop 0 0 = refused LastInstance\n4 s1 apply = changed\n5 s1 delete 3 = refused NoObject\n6 s1 apply = unchanged\n",
        ],
        end: b"\n7 s1 bye\nend 7 runs 0\n",
    },
];

// Whether the part stands in the text.
fn has_part(text: &[u8], part: &[u8]) -> bool
    requires { 0 < length part.now }
{
    text.windows(part.len()).any(|window| window == part)
}

#[test]
fn plates_are_changed_and_exported_again(rt: HostRuntime) -> Result<(), Fail> {
    for tale in &TALES {
        let name = tale.name;
        let mut sink = SteadySink::new(rt.alloc());
        let script = with_box(rt.alloc(), tale.commands)?;
        assert!(rt;
            run(&rt, rt.alloc(), script, &mut sink)? == Status::Done,
            "{name}"
        );
        for part in tale.lines {
            if !part.is_empty() {
                assert!(rt; has_part(sink.held(), part), "{name}");
            }
        }
        assert!(rt; sink.held().ends_with(tale.end), "{name}");
    }
    Ok(())
}

// What stands between two texts, from the first place of the one to the first place of the other after it.
fn between<'a>(text: &'a [u8], before: &[u8], after: &[u8]) -> Option<&'a [u8]>
    requires before { 0 < length before.now }
    requires after { 0 < length after.now }
{
    let at = text
        .windows(before.len())
        .position(|window| window == before)?;
    let rest = text.get(at..)?.strip_prefix(before)?;
    let end = rest
        .windows(after.len())
        .position(|window| window == after)?;
    rest.get(..end)
}

#[test]
fn an_object_that_is_moved_by_less_than_a_cell_is_printed_as_before(
    rt: HostRuntime,
) -> Result<(), Fail> {
    let commands =
        b"1 load a box\n1 apply\n1 export\n1 move 0 0 0.3 0\n1 apply\n1 export\n".as_slice();
    let mut sink = SteadySink::new(rt.alloc());
    let script = with_box(rt.alloc(), commands)?;
    assert!(rt; run(&rt, rt.alloc(), script, &mut sink)? == Status::Done);
    let text = sink.held();
    assert!(rt;
        has_part(
            text,
            b"\n25 s1 apply = invalidated tower skirt brim export\n26 s1 start tower 1\n"
        )
    );
    let first = between(text, b"\n23 s1 export = gcode ", b"\n24 s1 move 0 0 ");
    let second = between(text, b"\n34 s1 export = gcode ", b"\n35 s1 bye\n");
    assert!(rt; first.is_some());
    assert!(rt; first == second);
    assert!(rt; text.ends_with(b"\n35 s1 bye\nend 35 runs 14\n"));
    Ok(())
}

// All options but the tool of an object, as a program writes them.
const OPTIONS: &[u8] =
    b"layer_height = 0.2\nfirst_layer_height = 0.3\nperimeters = 2\ntop_solid_layers = 5\nbottom_solid_layers = 4\nfill_density = 15%\nironing = 1\nsupport_material = 0\nsupport_material_buildplate_only = 1\nskirts = 1\nskirt_distance = 2\nskirt_height = 3\nbrim_width = 1.2\nwipe_tower = 1\nwipe_tower_x = 170\nwipe_tower_y = 125\nwipe_tower_width = 60\nperimeter_speed = 45\ninfill_speed = 80\ntravel_speed = 180\ntemperature = 210\nfirst_layer_temperature = 215\nbed_temperature = 60\nfirst_layer_bed_temperature = 65\nfilament_diameter = 1.75\nextrusion_multiplier = 0.95\nstart_gcode = G28 W\nend_gcode = M84\nnotes =\n";

// A script that takes settings of 250 keys, of which 29 are options.
fn many_settings(alloc: Global) -> Result<Text, Fail> {
    let mut script = Text::copy_of(alloc, b"plater 1\ndata s\n# settings of a printer\n")?;
    script.append(OPTIONS)?;
    for number in 0..221u64 {
        let digits = Digits::whole(number);
        append_pieces(&mut script, &[b"other_", digits.bytes(), b" = 1\n"])?;
    }
    script.append(b".end\n1 ini s\n1 ini s\n1 apply\n")?;
    Ok(script)
}

#[test]
fn settings_of_250_keys_are_taken_and_passed_over(rt: HostRuntime) -> Result<(), Fail> {
    let mut sink = SteadySink::new(rt.alloc());
    let script = many_settings(rt.alloc())?;
    assert!(rt; run(&rt, rt.alloc(), script, &mut sink)? == Status::Done);
    let wanted =
        b"1 s1 ini s = set 29 221\n2 s1 ini s = set 29 221\n3 s1 apply = changed\n4 s1 bye\nend 4 runs 0\n".as_slice();
    assert!(rt; sink.held() == wanted);
    Ok(())
}
