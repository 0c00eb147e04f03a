// What holds of every state of an application.
ghost use Rattle.std.specs.Prelude.{◌≡◌, ◌<◌, ◌⊎◌, [], List, ℕ, Some, length};
ghost use Rattle.op_meaning.specs.AppState.{Application, IsApplication, new_application, state_code, state_in, stepped};
ghost use Rattle.op_meaning.specs.AppStateLaws.{AreBytes};

/// Each state has one code, from which it is read; nothing else but the empty value is read as a state; and a step
/// leaves the length of the code.
pub fn states_have_one_code()
    ensures found { (s : Application) → IsApplication s → state_in (state_code s) ≡ Some s }
    ensures only { (value : List ℕ) (s : Application) → AreBytes value → state_in value ≡ Some s →
        ((value ≡ []) × (s ≡ new_application)) ⊎ (value ≡ state_code s) }
    ensures step { (s : Application) → 0 < length s.input → length (state_code (stepped s)) ≡ length (state_code s) }
{}
