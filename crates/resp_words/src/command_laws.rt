ghost use Rattle.std.specs.Prelude.{◌≡◌, ◌<◌, ◌++◌, List, ℕ, length};
ghost use Rattle.resp_words.specs.Commands.{Agree, AreCommands, Finds, IsThis, IsWithin, command_bytes};
ghost use Rattle.resp_words.specs.declared.found.Command.{Command};
ghost use Rattle.resp_words.specs.declared.found.Found.{Found};
ghost use Rattle.resp_words.specs.declared.found.Found.TheVariants.{More as MoreIsNeeded};
ghost use Rattle.resp_words.specs.declared.limits.Limits.{Limits};

/// Of the bytes of a command, whatever follows them, that command is found; of a part of them more is asked for; and of any
/// bytes one answer is right.
pub fn a_command_is_found()
    ensures whole { (limits : Limits) (words : List (List ℕ)) (later : List ℕ) (found : Found Command) → IsWithin limits words →
        Finds limits (command_bytes words ++ later) found → IsThis words (length (command_bytes words)) found }
    ensures part { (limits : Limits) (words : List (List ℕ)) (front rest : List ℕ) (found : Found Command) → IsWithin limits words →
        command_bytes words ≡ front ++ rest → 0 < length rest → Finds limits front found → found ≡ MoreIsNeeded }
    ensures one { (limits : Limits) (bytes : List ℕ) (found other : Found Command) → Finds limits bytes found → Finds limits bytes other → Agree found other }
{}

/// A stream is commands and an unfinished rest in one way. What a piece more makes of it is told by the rest and that piece
/// alone, so it does not matter how reads cut a stream.
pub fn commands_are_told_apart()
    ensures commands { (limits : Limits) (bytes rest other : List ℕ) (commands others : List (List (List ℕ))) →
        AreCommands limits bytes commands rest → AreCommands limits bytes others other → commands ≡ others }
    ensures rest { (limits : Limits) (bytes rest other : List ℕ) (commands others : List (List (List ℕ))) →
        AreCommands limits bytes commands rest → AreCommands limits bytes others other → rest ≡ other }
    ensures pieces { (limits : Limits) (bytes piece rest last : List ℕ) (commands more : List (List (List ℕ))) →
        AreCommands limits bytes commands rest → AreCommands limits (rest ++ piece) more last → AreCommands limits (bytes ++ piece) (commands ++ more) last }
{}
