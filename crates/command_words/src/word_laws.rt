ghost use Rattle.std.specs.Prelude.{◌≡◌, ℕ, true, false, ◌<◌, ◌≤◌, ◌^◌, List, [], ◌∷◌, codes};
ghost use Rattle.std.specs.Fmt.{decimal};
ghost use Rattle.command_words.specs.declared.asked.Asked.TheVariants.{Init, Run, Dump, Demo, Upgrade, Ship, Follow};
ghost use Rattle.command_words.specs.declared.asked.Asked.{Asked};
ghost use Rattle.formats.specs.declared.params.Params.{Params};
ghost use Rattle.formats.specs.Objects.{IsInRange};
ghost use Rattle.command_words.specs.Words.{Asks, words_of};

/// The words of the command line ask for at most one thing.
pub fn words_ask_one_thing()
    ensures { (words : List (List ℕ)) (a b : Asked) → Asks words a → Asks words b → a ≡ b }
{}

/// The plain forms are taken: the program's name, the form and its numbers, in digits.
pub fn plain_words_are_taken()
    ensures run { (program : List ℕ) → Asks (program ∷ codes "run" ∷ []) (Run false) }
    ensures tend { (program : List ℕ) → Asks (program ∷ codes "run" ∷ codes "--tend" ∷ []) (Run true) }
    ensures dump { (program : List ℕ) → Asks (program ∷ codes "dump" ∷ []) Dump }
    ensures init { (program : List ℕ) (p : Params) → IsInRange p → Asks (program ∷ codes "init" ∷ words_of p) (Init p) }
    ensures upgrade { (program : List ℕ) (p : Params) → IsInRange p → Asks (program ∷ codes "upgrade" ∷ words_of p) (Upgrade p) }
    ensures demo { (program : List ℕ) (seed steps : ℕ) → seed < 2 ^ 64 → steps ≤ 1000000 → Asks (program ∷ codes "demo" ∷ codes "--seed" ∷ decimal seed ∷ codes "--steps" ∷ decimal steps ∷ []) (Demo seed steps) }
    ensures steps_first { (program : List ℕ) (seed steps : ℕ) → seed < 2 ^ 64 → steps ≤ 1000000 → Asks (program ∷ codes "demo" ∷ codes "--steps" ∷ decimal steps ∷ codes "--seed" ∷ decimal seed ∷ []) (Demo seed steps) }
    ensures ship { (program : List ℕ) (from : ℕ) → 1 ≤ from → from < 2 ^ 62 → Asks (program ∷ codes "ship" ∷ decimal from ∷ []) (Ship from) }
    ensures follow { (program : List ℕ) → Asks (program ∷ codes "follow" ∷ []) (Follow false) }
    ensures same { (program : List ℕ) → Asks (program ∷ codes "follow" ∷ codes "--same" ∷ []) (Follow true) }
{}
