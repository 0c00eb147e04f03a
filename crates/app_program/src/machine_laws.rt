// What holds of every machine and every history of one.
ghost use Rattle.std.specs.Prelude.{◌≡◌, ◌≤◌, ◌⊎◌, [], List, ℕ, Some, length};
ghost use Rattle.oper_core.specs.Meaning.{IsSmall};
ghost use Rattle.oper_core.specs.declared.bounds.Bounds.{Bounds};
ghost use Rattle.app_program.specs.declared.instruction.Instruction.{Instruction};
ghost use Rattle.app_program.specs.History.{Event, FeedsBytes, all_fed, all_happened, step_count, value_after_all};
ghost use Rattle.app_program.specs.Machine.{Machine, machine, new_machine};
ghost use Rattle.app_program.specs.OneCode.{AreBytes};
ghost use Rattle.app_program.specs.State.{HasDone, IsMachine, state_code, state_in};

/// However feeds and steps alternate, a machine that has no input at first does what it does on all that it is fed.
pub fn the_machine_runs_on_all_input()
    ensures { (program : List Instruction) (events : List Event) (m : Machine) → all_happened program (new_machine []) events ≡ Some m
        → machine program (all_fed events) (step_count events) ≡ Some m }
{}

/// However accepted feeds and steps of one program alternate on a value that is empty at first, it is the state of the machine
/// that has done as many steps of the program on all that was fed.
pub fn a_value_follows_the_machine()
    ensures { (b : Bounds) (code value : List ℕ) (events : List Event) → IsSmall b → AreBytes code → length code ≤ b.cap → FeedsBytes events
        → value_after_all b code [] events ≡ Some value → HasDone code (all_fed events) (step_count events) value }
{}

/// Each machine has one code, in which it is found; and nothing else but the empty value is read as the state of one.
pub fn machines_have_one_code()
    ensures found { (m : Machine) → IsMachine m → state_in (state_code m) ≡ Some m }
    ensures only { (value : List ℕ) (m : Machine) → AreBytes value → state_in value ≡ Some m →
        ((value ≡ []) × (m ≡ new_machine [])) ⊎ (value ≡ state_code m) }
{}
