//! The tools of each height of a print.
ghost use Rattle.std.specs.Prelude.{◌≡◌, IfOk};
ghost use Rattle.pl_tower.specs.Heights.{last_tool, tools_along};

use crate::{ToolSet, Tools, tool_order};
use pl_units::NoMemory;
use std::alloc::Global;

/// The tools of each height in order, from the sets that the heights use, the lowest first. Before the first height
/// the current tool is 0, and after a height it is the last of its tools; a height without tools keeps it.
/// Refused only for want of memory.
pub fn tools_of_heights(alloc: Global, used: &[ToolSet]) -> Result<Vec<Tools>, NoMemory>
    ensures { IfOk result (λ heights. heights.items ≡ tools_along 0 used.now) }
{
    let mut heights = Vec::new(alloc);
    let mut current = 0;
    for set in used {
        let tools = tool_order(alloc, current, *set)?;
        current = tool_after(current, &tools);
        heights.push(tools)?;
    }
    Ok(heights)
}

/// The current tool after a height with these tools: the last of them, and still the one before where there are none.
pub fn tool_after(current: u8, tools: &Tools) -> u8
    ensures { result ≡ last_tool current tools.now }
{
    tools.tools().last().copied().unwrap_or(current)
}
