ghost use Rattle.std.specs.Prelude.{◌≡◌, ℕ, ◌+◌, ◌*◌, ◌≤◌, List, length};
ghost use Rattle.script_lines.specs.DemoScript.{script_of};
ghost use Rattle.script_lines.specs.Grammar.{AsksFor, Request};
ghost use Rattle.script_lines.specs.Replies.{Reply, HasSmallNumbers, text_of};

/// A line asks for at most one thing: it has one form, and this form one value of each field.
pub fn a_line_asks_one_thing()
    ensures { (line : List ℕ) (a b : Request) → AsksFor line a → AsksFor line b → a ≡ b }
{}

/// A text is that of at most one reply, so what an answer says can be read back.
pub fn a_text_says_one_thing()
    ensures { (a b : Reply) → HasSmallNumbers a → HasSmallNumbers b → text_of a ≡ text_of b → a ≡ b }
{}

/// A demo's script has eighteen lines more than steps, and with its newline none of them is longer than 40 bytes.
pub fn scripts_are_short()
    ensures { (seed steps : ℕ) → length (script_of seed steps) ≤ 40 * (steps + 18) }
{}
