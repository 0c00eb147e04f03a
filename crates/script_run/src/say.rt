// An answer is said as a line.
ghost use Rattle.std.specs.Prelude.{◌≡◌, ◌++◌, OnOk, IfOk, IfErr};
ghost use Rattle.disk_model.specs.Disk.{Runs, Same, SaysFront};
ghost use Rattle.script_lines.specs.Replies.{reply_of, said_line};
ghost use Rattle.shell_base.specs.Stops.{IsCaused, IsUndamaged};
ghost use Rattle.script_run.specs.Replies.{is_refusing};

use disk_model::Machine;
use script_lines::{Answer, answer_line};
use shell_base::{Stop, say_line};
use std::alloc::Global;

/// Whether the status reports an answer.
fn refuses(answer: &Answer<'_>) -> bool
    ensures { result ≡ is_refusing (reply_of answer.now) }
{
    matches!(
        answer,
        Answer::Bad
            | Answer::Refused(_)
            | Answer::BadTree
            | Answer::TreeFull
            | Answer::Denied(_)
            | Answer::InGroup
            | Answer::NoGroup
            | Answer::BackupDenied(_)
            | Answer::Full { .. }
            | Answer::End { .. }
    )
}

/// Says an answer as a line. It reports whether the answer is a refusal. Fails where the output does, and by lack of
/// memory.
pub fn say_answer<M: Machine>(
    alloc: Global,
    machine: &mut M,
    answer: &Answer<'_>,
) -> Result<bool, Stop>
    ensures runs { Runs Same (SaysFront (said_line (reply_of answer.now))) (M.disk machine.old) (M.disk machine.new) }
    ensures all { (M.disk machine.old).tells_files → OnOk result ((M.disk machine.new).said ≡ (M.disk machine.old).said ++ said_line (reply_of answer.now)) }
    ensures kind { IfOk result (λ refusing. refusing ≡ is_refusing (reply_of answer.now)) }
    ensures cause { IfErr result (λ stop. IsCaused stop (M.disk machine.old) (M.disk machine.new)) }
    ensures undamaged { IfErr result IsUndamaged }
{
    if let Answer::Done = answer {
        say_line(machine, b"ok\n")?;
        return Ok(false);
    }
    let line = answer_line(alloc, answer)?;
    say_line(machine, line.as_slice())?;
    Ok(refuses(answer))
}
