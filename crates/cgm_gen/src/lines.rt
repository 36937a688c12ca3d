//! The lines of a generated text.
ghost use Rattle.std.specs.Prelude.{◌≡◌, ◌++◌, ◌-◌, ◌+◌, ◌<◌, ◌≤◌, length, IfOk, OnOk};
ghost use Rattle.std.specs.String.{string_bytes};
ghost use Rattle.cgm_gen.specs.Draws.{most_goals};
ghost use Rattle.cgm_gen.specs.GeneratedText.{chain_lines, each_goal, goal_lines, link_line, value_lines};

use crate::costs::Costs;
use cgm_base::OutOfMemory;
use std::alloc::Global;

/// The first place of a goal that is joined to the next one.
const FIRST_JOINED: u32 = 8;

/// The lines that declare a goal, its two tasks and the two ways to reach it.
fn goal_lines(alloc: Global, place: u32) -> Result<String, OutOfMemory>
    requires { place < most_goals }
    ensures { IfOk result (λ lines. string_bytes lines ≡ goal_lines place) }
{
    let number = place + 1;
    format!(in alloc;
        "goal G{number} must\ntask B{number}\ntask A{number}\nrefine R{number} G{number} : A{number}\nrefine S{number} G{number} : B{number}\n"
    )
}

/// The lines of what the two tasks of a goal cost.
fn value_lines(alloc: Global, place: u32, costs: Costs) -> Result<String, OutOfMemory>
    requires { place < most_goals }
    ensures { IfOk result (λ lines. string_bytes lines ≡ value_lines place costs) }
{
    let number = place + 1;
    let Costs { of_a, of_b } = costs;
    format!(in alloc; "value cost A{number} {of_a}\nvalue cost B{number} {of_b}\n")
}

/// The line that joins the task B of a goal to that of the next one.
fn link_line(alloc: Global, place: u32) -> Result<String, OutOfMemory>
    requires { place < most_goals }
    ensures { IfOk result (λ line. string_bytes line ≡ link_line place) }
{
    let number = place + 1;
    let next = number + 1;
    format!(in alloc; "contrib B{number} B{next}\n")
}

fn write(text: &mut Vec<u8>, more: &str) -> Result<(), OutOfMemory>
    ensures { OnOk result (text.new.items ≡ text.old.items ++ more.now) }
{
    text.extend_from_slice(more.as_bytes())?;
    Ok(())
}

/// Writes the lines that declare the goals.
pub(crate) fn write_goals(
    alloc: Global,
    text: &mut Vec<u8>,
    costs: &[Costs],
) -> Result<(), OutOfMemory>
    requires { length costs.now ≤ most_goals }
    ensures { OnOk result (text.new.items
        ≡ text.old.items ++ each_goal (λ place costs. goal_lines place) 0 costs.now) }
{
    let mut place = 0;
    for one in costs {
        let _costs = *one;
        let lines = goal_lines(alloc, place)?;
        write(text, lines.as_str())?;
        place += 1;
    }
    Ok(())
}

/// Writes the lines of the costs.
pub(crate) fn write_values(
    alloc: Global,
    text: &mut Vec<u8>,
    costs: &[Costs],
) -> Result<(), OutOfMemory>
    requires { length costs.now ≤ most_goals }
    ensures { OnOk result (text.new.items
        ≡ text.old.items ++ each_goal value_lines 0 costs.now) }
{
    let mut place = 0;
    for one in costs {
        let lines = value_lines(alloc, place, *one)?;
        write(text, lines.as_str())?;
        place += 1;
    }
    Ok(())
}

/// Writes the lines that join the tasks B of the goals from the ninth on, each to the next one.
pub(crate) fn write_chain(alloc: Global, text: &mut Vec<u8>, goals: u32) -> Result<(), OutOfMemory>
    requires { goals ≤ most_goals }
    ensures { OnOk result (text.new.items ≡ text.old.items ++ chain_lines 8 (goals - 9)) }
{
    let mut place = FIRST_JOINED;
    let mut next = place + 1;
    while next < goals {
        let line = link_line(alloc, place)?;
        write(text, line.as_str())?;
        place = next;
        next += 1;
    }
    Ok(())
}
