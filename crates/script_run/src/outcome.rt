// What a line comes to, before it is said.
ghost use Rattle.std.specs.Prelude.{◌≡◌, IfOk};
ghost use Rattle.store_engine.specs.Engine.{EngineView};
ghost use Rattle.script_run.specs.Finding.{IsReadable, IsSaid, outcome_reply, reply_if, told};

use crate::asking::Found;
use crate::say::say_answer;
use disk_model::Machine;
use op_codec::AllOps;
use script_lines::Answer;
use shell_base::Stop;
use std::alloc::Global;
use store_engine::Engine;

/// What a line comes to.
#[derive(Drop)]
pub enum Outcome {
    /// This answer.
    Told(Answer<'static>),
    /// What was found in a tree, a hash file or a map.
    Found(Found),
    /// The value of this object, which is cached.
    Cached { object: u32 },
    /// No answer: the line is skipped.
    Nothing,
}

impl Outcome {
    /// The answer, if there is one.
    fn answer<'a>(&'a self, engine: &'a Engine<AllOps>) -> Option<Answer<'a>>
        requires { IsReadable engine.now self.now }
        ensures { reply_if result ≡ outcome_reply engine.now self.now }
    {
        match self {
            Outcome::Told(answer) => Some(*answer),
            Outcome::Found(found) => Some(found.answer()),
            Outcome::Cached { object } => Some(Answer::Value(engine.get(*object))),
            Outcome::Nothing => None,
        }
    }
}

/// An answer that was found, or why there is none.
pub fn told(answer: Result<Answer<'static>, Stop>) -> Result<Outcome, Stop>
    ensures told { result ≡ told answer.entry }
    ensures readable { (engine : EngineView) → IfOk result (IsReadable engine) }
{
    match answer {
        Ok(answer) => Ok(Outcome::Told(answer)),
        Err(stop) => Err(stop),
    }
}

/// Says what a line comes to. It reports whether the answer is a refusal. Fails where the output does, and by lack of memory.
pub fn say_outcome<M: Machine>(
    alloc: Global,
    engine: &Engine<AllOps>,
    machine: &mut M,
    outcome: &Outcome,
) -> Result<bool, Stop>
    requires { IsReadable engine.now outcome.now }
    ensures { IsSaid (outcome_reply engine.now outcome.now) (M.disk machine.old) (M.disk machine.new) result }
{
    match outcome.answer(engine) {
        Some(answer) => say_answer(alloc, machine, &answer),
        None => Ok(false),
    }
}
