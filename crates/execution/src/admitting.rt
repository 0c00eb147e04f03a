// What a command reads, and what refuses it.
ghost use Rattle.std.specs.Prelude.{◌≡◌, ◌<◌, ◌≤◌, ◌+◌, ◌^◌, false, length, OnErr, IfOk, IfErr, IsErrOf};
ghost use Rattle.disk_model.specs.declared.machine.FileNo.TheVariants.{Objects as ObjectsFile};
ghost use Rattle.oper_core.specs.Meaning.{IsInGrammar, read_values};
ghost use Rattle.formats.specs.declared.params.Params.{Params as Numbers};
ghost use Rattle.running_store.specs.Calls.{IsFailed};
ghost use Rattle.running_store.specs.Calls.Fetches.{IsFetch};
ghost use Rattle.running_store.specs.Laid.{IsLaidOn, values_in};
ghost use Rattle.running_store.specs.Laid.Lent.{inputs_in};
ghost use Rattle.running_store.specs.Parts.{meaning_in};
ghost use Rattle.running_store.specs.StoreView.{store_params};
ghost use Rattle.running_store.specs.Calls.Commands.{command_length, IsReady};
ghost use Rattle.execution.specs.Answers.{ending_of_exec};
ghost use Rattle.execution.specs.Failures.{IsAdmitFailure, IsAdmittedOn};

use crate::exec_err::ExecErr;
use disk_model::Machine;
use formats::RECORD_HEAD;
use oper_core::{Memory, Oper, Values};
use running_store::Store;

// How many bytes the operation's record has. No memory holds a code of 2^63 bytes or more.
fn record_length<O: Oper>(op: &O) -> Result<u64, Memory>
    ensures length { (p : Numbers) → IfOk result (λ n. n ≡ command_length (meaning_in O.meaning p) op.now) }
    ensures range { IfOk result (λ n. (0 < n) × (n < 2 ^ 63 + 9)) }
    ensures long { (p : Numbers) → OnErr result (2 ^ 63 ≤ length ((meaning_in O.meaning p).code op.now)) }
{
    let code = op.code_length();
    if code > i64::MAX as u64 {
        return Err(Memory);
    }
    Ok(RECORD_HEAD as u64 + code)
}

// Copies of what an operation reads, or none where the cache has it, if nothing refuses the operation on that; and the length of
// its record.
pub(crate) fn admit<O: Oper, M: Machine>(
    store: &mut Store<O>,
    machine: &mut M,
    op: &O,
) -> Result<(Option<Values>, u64), ExecErr>
    requires unbroken { store.old.broken ≡ false }
    ensures call { IsFetch (M.disk machine.old) (M.disk machine.new) store.old store.new (IsFailed (ending_of_exec result)) }
    ensures ready { IfOk result (λ pair. IsReady O.meaning (store_params store.old) op.now
        (inputs_in store.new.parts.volatile.objects.cache ((meaning_in O.meaning (store_params store.old)).reads op.now) pair.0)) }
    ensures length { IfOk result (λ pair. (pair.1 ≡ command_length (meaning_in O.meaning (store_params store.old)) op.now) × (0 < pair.1) × (pair.1 < 2 ^ 63 + 9)) }
    // Where the objects are laid on their file, the values that these have are read, and what is refused is refused on them.
    ensures read { (M.disk machine.old).tells_files → IsLaidOn store.old.parts.volatile.objects ((M.disk machine.old).reads ObjectsFile) → IfOk result (λ pair.
        inputs_in store.new.parts.volatile.objects.cache ((meaning_in O.meaning (store_params store.old)).reads op.now) pair.0
        ≡ read_values (meaning_in O.meaning (store_params store.old)) (values_in store.old.parts.volatile.objects ((M.disk machine.old).reads ObjectsFile)) op.now) }
    ensures shown { (M.disk machine.old).tells_files → IsLaidOn store.old.parts.volatile.objects ((M.disk machine.old).reads ObjectsFile) →
        IsAdmittedOn (meaning_in O.meaning (store_params store.old)) (values_in store.old.parts.volatile.objects ((M.disk machine.old).reads ObjectsFile)) op.now result }
    ensures fault { IsErrOf result ExecErr.DiskFault → IsInGrammar (meaning_in O.meaning (store_params store.old)) op.now
        × (0 < Rattle.std.specs.Prelude.length ((meaning_in O.meaning (store_params store.old)).reads op.now)) }
    ensures cause { IfErr result (IsAdmitFailure O.meaning (store_params store.old) op.now (M.disk machine.old) (M.disk machine.new) store.old.parts.volatile.objects) }
{
    let _params = store.params();
    let bounds = store.objects().bounds();
    if let Err(refusal) = op.shape(bounds) {
        return Err(ExecErr::Refused(refusal));
    }
    let copies = store.inputs_of(machine, op.reads().as_slice())?;
    if let Err(refusal) = store.check_command(op, &copies) {
        return Err(ExecErr::Refused(refusal));
    }
    let length = record_length(op)?;
    Ok((copies, length))
}
