//! The tools of one height.
ghost use Rattle.std.specs.Prelude.{◌≡◌, ◌==◌, ◌++◌, ◌&&◌, not, IfOk, filter};
ghost use Rattle.pl_tower.specs.Tools.{has, members, others, order_of};

use crate::{ToolSet, Tools};
use pl_units::NoMemory;
use std::alloc::Global;

/// The tools that a height uses, in order: the current one first where it is used, then the others ascending.
/// Refused only for want of memory.
pub fn tool_order(alloc: Global, current: u8, used: ToolSet) -> Result<Tools, NoMemory>
    ensures { IfOk result (λ tools. tools ≡ order_of current used) }
{
    let mut tools = first_tool(alloc, current, used)?;
    put_others(current, used, &mut tools)?;
    Ok(Tools::of(tools))
}

/// The current tool where it is used, and else none.
fn first_tool(alloc: Global, current: u8, used: ToolSet) -> Result<Vec<u8>, NoMemory>
    ensures { IfOk result (λ tools. tools.items ≡ filter (λ t. t == current) (members used)) }
{
    let mut tools = Vec::new(alloc);
    if used.has(current) {
        tools.push(current)?;
    }
    Ok(tools)
}

/// Appends the used tools but the current one, ascending.
fn put_others(current: u8, used: ToolSet, tools: &mut Vec<u8>) -> Result<(), NoMemory>
    ensures { IfOk result (λ _. tools.new.items ≡ tools.old.items ++ others current (members used)) }
{
    for tool in 0..4u8 {
        if is_other(current, used, tool) {
            tools.push(tool)?;
        }
    }
    Ok(())
}

/// Whether the tool is used, and is not the current one.
fn is_other(current: u8, used: ToolSet, tool: u8) -> bool
    ensures { result ≡ (not (tool == current) && has used tool) }
{
    tool != current && used.has(tool)
}
