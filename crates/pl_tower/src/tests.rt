use crate::{ToolSet, Tools, tool_order, tools_of_heights, tower_block};
use pl_grid::Stroke;
use std::test::Fail;

fn stroke(x0: i32, y0: i32, x1: i32, y1: i32) -> Stroke {
    Stroke { x0, y0, x1, y1 }
}

/// The set of the tools whose bits are set in a number from 0 to 15.
fn tool_set(bits: u8) -> ToolSet {
    let mut set = ToolSet::empty();
    for tool in 0..4u8 {
        if (bits >> tool) & 1 == 1 {
            set = set.with(tool);
        }
    }
    set
}

/// How often a tool stands in a list.
fn count(tools: &[u8], tool: u8) -> usize {
    tools.iter().filter(|t| **t == tool).count()
}

/// No tool but the current one is above the next that is another.
fn ascend(tools: &[u8], current: u8) -> bool {
    let mut least = 0;
    for tool in tools {
        if *tool == current {
            continue;
        }
        if *tool < least {
            return false;
        }
        least = *tool;
    }
    true
}

#[test]
fn sets_hold_their_tools(rt: HostRuntime) {
    let set = ToolSet::empty().with(0).with(3).with(3);
    for (tool, wanted) in &[
        (0, true),
        (1, false),
        (2, false),
        (3, true),
        (4, false),
        (255, false),
    ] {
        assert_eq!(rt; set.has(*tool), *wanted, "{tool}");
    }
}

#[test]
fn every_set_comes_in_its_order(rt: HostRuntime) -> Result<(), Fail> {
    let alloc = rt.alloc();
    for bits in 0..16u8 {
        for current in 0..4u8 {
            let set = tool_set(bits);
            let order = tool_order(alloc, current, set)?;
            let tools = order.tools();
            for tool in 0..4u8 {
                let wanted = usize::from((bits >> tool) & 1);
                assert_eq!(rt;
                    count(tools, tool),
                    wanted,
                    "{tool} of {bits} after {current}"
                );
            }
            let first = tools.first().copied();
            let is_used = (bits >> current) & 1 == 1;
            assert!(rt;
                !is_used || first == Some(current),
                "{bits} after {current}"
            );
            assert!(rt; ascend(tools, current), "{bits} after {current}");
        }
    }
    Ok(())
}

#[test]
fn the_current_tool_comes_first(rt: HostRuntime) -> Result<(), Fail> {
    let alloc = rt.alloc();
    let table: [(u8, u8, &[u8]); 4] = [
        (0, 0b0011, &[0, 1]),
        (1, 0b0011, &[1, 0]),
        (2, 0b1011, &[0, 1, 3]),
        (2, 0b1111, &[2, 0, 1, 3]),
    ];
    for (current, bits, wanted) in &table {
        let order = tool_order(alloc, *current, tool_set(*bits))?;
        assert!(rt; order.tools() == *wanted, "{bits} after {current}");
    }
    Ok(())
}

#[test]
fn heights_keep_the_last_tool(rt: HostRuntime) -> Result<(), Fail> {
    let alloc = rt.alloc();
    let used = [
        tool_set(0b0011),
        tool_set(0b0011),
        tool_set(0b0000),
        tool_set(0b0101),
        tool_set(0b0010),
    ];
    let wanted: [&[u8]; 5] = [&[0, 1], &[1, 0], &[], &[0, 2], &[1]];
    let heights = tools_of_heights(alloc, &used)?;
    assert_eq!(rt; heights.len(), 5);
    for (tools, row) in heights.iter().zip(wanted.iter()) {
        assert!(rt; tools.tools() == *row);
    }
    Ok(())
}

#[test]
fn a_list_gives_its_tools_back(rt: HostRuntime) -> Result<(), Fail> {
    let tools = Tools::of(Vec::from_slice(rt.alloc(), &[2, 0])?);
    assert_eq!(rt; tools.into_vec().as_slice(), [2, 0].as_slice());
    Ok(())
}

#[test]
fn the_tower_goes_there_and_back(rt: HostRuntime) -> Result<(), Fail> {
    let alloc = rt.alloc();
    let first = [
        stroke(900, 701, 1200, 701),
        stroke(1200, 703, 900, 703),
        stroke(900, 705, 1200, 705),
        stroke(1200, 707, 900, 707),
    ];
    let last = [
        stroke(5000, 5025, 10000, 5025),
        stroke(10000, 5027, 5000, 5027),
        stroke(5000, 5029, 10000, 5029),
        stroke(10000, 5031, 5000, 5031),
    ];
    assert_eq!(rt;
        tower_block(alloc, 450, 350, 150, 0)?.as_slice(),
        first.as_slice()
    );
    assert_eq!(rt;
        tower_block(alloc, 2500, 2500, 2500, 3)?.as_slice(),
        last.as_slice()
    );
    Ok(())
}
