// What holds of every operation.
ghost use Rattle.std.specs.Prelude.{◌≡◌, [], List, ℕ, Some, map};
ghost use Rattle.oper_core.specs.declared.bounds.Bounds.{Bounds};
ghost use Rattle.oper_core.specs.declared.refusal.Refusal.{Refusal};
ghost use Rattle.op_codec.specs.AllOps.{AllOps, all_meaning};

/// Where an operation is refused for the values that it reads, it makes every object that it writes empty. So a restart,
/// which refuses nothing, may do it on any values.
pub fn refused_makes_empty()
    ensures { (b : Bounds) (op : AllOps) (values : List (List ℕ)) (r : Refusal) → (all_meaning b).check op values ≡ Some r
        → (all_meaning b).effect op values ≡ map (λ x. []) ((all_meaning b).writes op) }
{}
