ghost use Rattle.std.specs.Prelude.{◌≡◌, IfOk};
ghost use Rattle.script_lines.specs.DemoScript.{script_of};

use crate::draws::Draws;
use crate::steps::{push_closing, push_step};
use oper_core::Memory;
use std::alloc::Global;

/// The script of a demo, by its seed: so many lines that are drawn, and the eighteen that end every script. Out of
/// memory is its only error.
#[tactic(auto, unfolding(crate::specs::DemoScript::script_of))]
pub fn demo_script(alloc: Global, seed: u64, steps: u32) -> Result<Vec<u8>, Memory>
    ensures { IfOk result (λ script. script.items ≡ script_of seed steps) }
{
    let mut script = Vec::new(alloc);
    let mut draws = Draws::new(seed);
    for _ in 0..steps {
        push_step(alloc, &mut script, &mut draws)?;
    }
    push_closing(alloc, &mut script)?;
    Ok(script)
}
