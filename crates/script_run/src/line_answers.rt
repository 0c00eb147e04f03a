// Which answer a line gets.
ghost use Rattle.std.specs.Prelude.{◌≡◌, ◌≢◌, ◌⊎◌, ◌<◌, ◌≤◌, ◌↔◌, ◌+◌, ◌^◌, ◌++◌, IsTrue, List, ℕ, length, min, take, Option, None, Some};
ghost use Rattle.std.specs.Option.{is_some};
ghost use Rattle.std.specs.List.{flat_map};
ghost use Rattle.formats.specs.declared.params.Params.{Params};
ghost use Rattle.oper_core.specs.declared.refusal.Refusal.{Refusal as Why};
ghost use Rattle.oper_core.specs.declared.refusal.Refusal.TheVariants.{NoObject};
ghost use Rattle.script_lines.specs.Grammar.{AsksFor, IsBad, Request};
ghost use Rattle.script_lines.specs.declared.line.Line.TheVariants.{Save, Ask, Force as force, Stat as asks_stat, Skip as skip};
ghost use Rattle.script_lines.specs.declared.line.Question.TheVariants.{Get as get};
ghost use Rattle.script_lines.specs.declared.line.Saving.TheVariants.{Start as bstart, Copy as bcopy, Finish as bfinish};
ghost use Rattle.script_lines.specs.Replies.{Reply, ok, bad, value, refused, forced, in_group, no_group, full, stat, copied, saved, backup_denied, silence, text_of, said_line, HasSmallNumbers};
ghost use Rattle.script_lines.specs.declared.answer.StatLine.{StatLine};
ghost use Rattle.script_lines.specs.declared.backup_denial.BackupDenial.{BackupDenial};
ghost use Rattle.script_lines.specs.declared.backup_denial.BackupDenial.TheVariants.{AlreadyStore};
ghost use Rattle.disk_model.specs.Disk.{Files};
ghost use Rattle.disk_model.specs.declared.machine.FileNo.TheVariants.{Objects};
ghost use Rattle.formats.specs.Objects.{BeginsStore};
ghost use Rattle.running_store.specs.Courses.{grown};
ghost use Rattle.explain_core.specs.History.{commands_of};
ghost use Rattle.shell_base.specs.Store.{Command, meaning_in, refusal_after, state_of, record_length};
ghost use Rattle.shell_base.specs.First.{Stage};
ghost use Rattle.script_run.specs.Printed.{whole_lines, texts_of};
ghost use Rattle.script_run.specs.Replies.{AsksCommand, Replies, IsBarred, IsClosing, IsDenied, IsFull};
ghost use Rattle.script_run.specs.Stages.{GoesBy, IsDeniedAt, Leads, backup_bytes, forced_stage, with_copied};
ghost use Rattle.script_run.specs.Groups.{open_in};
ghost use Rattle.script_run.specs.Saving.{FindsStore, store_behind};

use script_lines::{a_line_asks_one_thing, a_text_says_one_thing};

/// Each answer to a line comes exactly where its cause holds: `bad` where the line is outside the grammar, `refused` with
/// the first refusal, a value, `forced` with the number of commands, none where it is skipped, `full` where the record of a
/// command that nothing refuses does not fit, and `refused InGroup` and `refused NoGroup` by the open group. The answers of a
/// backup have a law of their own. What is left is `ok` and `end`, by the numbers that are left.
pub fn a_line_gets_the_answer_of_its_cause()
    ensures bad { (p : Params) (group : Option ℕ) (commands : List Command) (line : List ℕ) (reply : Reply) (added : List Command) → Replies p group commands line reply added →
        (reply ≡ bad) ↔ IsBad line }
    ensures refused { (p : Params) (group : Option ℕ) (commands : List Command) (line : List ℕ) (reply : Reply) (added : List Command) (op : Command) (why : Why) → Replies p group commands line reply added →
        AsksCommand line op → (reply ≡ refused why) ↔ (refusal_after p commands op ≡ Some why) }
    ensures no_object { (p : Params) (group : Option ℕ) (commands : List Command) (line : List ℕ) (reply : Reply) (added : List Command) (object : ℕ) → Replies p group commands line reply added →
        AsksFor line (Ask (get object)) → (reply ≡ refused NoObject) ↔ (p.objects ≤ object) }
    ensures value { (p : Params) (group : Option ℕ) (commands : List Command) (line : List ℕ) (reply : Reply) (added : List Command) (object : ℕ) → Replies p group commands line reply added →
        AsksFor line (Ask (get object)) → object < p.objects → reply ≡ value (state_of p commands object) }
    ensures forced { (p : Params) (group : Option ℕ) (commands : List Command) (line : List ℕ) (reply : Reply) (added : List Command) → Replies p group commands line reply added →
        AsksFor line force → group ≡ None → reply ≡ forced (length commands) }
    // The answers of each run go by its stages, however it ends (`SaysTruly`, its `goes`).
    ensures full { (p : Params) (group : Option ℕ) (commands : List Command) (line : List ℕ) (reply : Reply) (added : List Command) (op : Command) (before after : Stage) → Replies p group commands line reply added →
        GoesBy p before line reply after → commands_of before.world.history ≡ commands → AsksCommand line op → refusal_after p commands op ≡ None → IsFull reply ↔ (p.limit < grown (meaning_in p) before.world before.used (record_length p op)) }
    ensures in_group { (p : Params) (group : Option ℕ) (commands : List Command) (line : List ℕ) (reply : Reply) (added : List Command) → Replies p group commands line reply added →
        (reply ≡ in_group) ↔ ((request : Request) × IsBarred request × AsksFor line request × IsTrue (is_some group)) }
    ensures no_group { (p : Params) (group : Option ℕ) (commands : List Command) (line : List ℕ) (reply : Reply) (added : List Command) → Replies p group commands line reply added →
        (reply ≡ no_group) ↔ ((request : Request) × IsClosing request × AsksFor line request × (group ≡ None)) }
    ensures counts { (p : Params) (group : Option ℕ) (commands : List Command) (line : List ℕ) (reply : Reply) (added : List Command) → Replies p group commands line reply added →
        AsksFor line asks_stat → (counts : StatLine) × (reply ≡ stat counts) }
    ensures silence { (p : Params) (group : Option ℕ) (commands : List Command) (line : List ℕ) (reply : Reply) (added : List Command) → Replies p group commands line reply added →
        AsksFor line skip → reply ≡ silence }
{
    a_line_asks_one_thing();
}

/// Each answer to a line of a backup comes exactly where its cause holds, by how many objects are copied as the line is read,
/// and by whether a store is in the backup's files, which were such as the call began, behind the earlier answers: a denial,
/// that of a trim too, and else `ok` where a backup starts, `copied` with how far it is, and at its end `saved` with the
/// number of commands, or `full`.
pub fn a_backup_line_gets_the_answer_of_its_cause()
    ensures denied { (p : Params) (before after : Stage) (line : List ℕ) (reply : Reply) (why : BackupDenial) → Leads p before line reply after → why ≢ AlreadyStore →
        (reply ≡ backup_denied why) ↔ ((request : Request) × IsDenied why request × AsksFor line request × (open_in before.world ≡ None) × IsDeniedAt p.objects before.copied why) }
    ensures found { (files : Files) (earlier : List Reply) (p : Params) (before after : Stage) (line : List ℕ) (reply : Reply) → Leads p before line reply after →
        FindsStore (store_behind (BeginsStore (files Objects)) earlier) line reply →
        (reply ≡ backup_denied AlreadyStore) ↔ (AsksFor line (Save bstart) × (open_in before.world ≡ None) × (before.copied ≡ None) × store_behind (BeginsStore (files Objects)) earlier) }
    ensures starts { (files : Files) (earlier : List Reply) (p : Params) (before after : Stage) (line : List ℕ) (reply : Reply) → Leads p before line reply after →
        FindsStore (store_behind (BeginsStore (files Objects)) earlier) line reply →
        AsksFor line (Save bstart) → open_in before.world ≡ None → before.copied ≡ None → (store_behind (BeginsStore (files Objects)) earlier → ⊥) →
        (reply ≡ ok) × (after ≡ with_copied (Some 0) (forced_stage p before)) }
    ensures copies { (p : Params) (before after : Stage) (line : List ℕ) (reply : Reply) (count n : ℕ) → Leads p before line reply after →
        AsksFor line (Save (bcopy count)) → open_in before.world ≡ None → before.copied ≡ Some n →
        (reply ≡ copied (min (n + count) p.objects)) × (after ≡ with_copied (Some (min (n + count) p.objects)) before) }
    // It is `full` exactly where the log of the backup would have more than 2^48 bytes.
    ensures saves { (p : Params) (before after : Stage) (line : List ℕ) (reply : Reply) → Leads p before line reply after →
        AsksFor line (Save bfinish) → open_in before.world ≡ None → before.copied ≡ Some p.objects →
        ((reply ≡ saved (length (commands_of before.world.history))) × (backup_bytes p (forced_stage p before) ≤ 2 ^ 48) × (after ≡ with_copied None (forced_stage p before)))
        ⊎ ((reply ≡ full (forced_stage p before).used (backup_bytes p (forced_stage p before)) (2 ^ 48)) × (2 ^ 48 < backup_bytes p (forced_stage p before)) × (after ≡ forced_stage p before)) }
{
    a_line_asks_one_thing();
}

/// The whole lines of what is printed are the texts of the answers, one after the other: no text has a newline, and what
/// is printed of the next answer is no whole line. So what was printed reports which answers were given.
pub fn the_lines_said_are_the_answers()
    ensures lines { (replies : List Reply) (next : Reply) (count : ℕ) → whole_lines (flat_map said_line replies ++ take count (text_of next)) ≡ texts_of replies }
    ensures one { (a b : Reply) → HasSmallNumbers a → HasSmallNumbers b → text_of a ≡ text_of b → a ≡ b }
{
    a_text_says_one_thing();
}
