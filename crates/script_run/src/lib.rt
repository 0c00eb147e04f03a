//! The run of a script on a store: [`run`] answers its lines, one after the other, and notes them.
//!
//! The one contract is `IsRunCall`: on files that stand for a list of commands the answers are those of a plain map, and whatever
//! a crash leaves of the files at any moment is what one at the start could leave, or stands for that list and a beginning of the
//! commands that the script has added, which splits no group; with that beginning the list is no shorter than any number that was
//! printed to be forced. The answers go by the stages of the store, from the world that a restart finds in the files: `full`,
//! `end` and the counts follow from the course that each line takes. A line may make several commands, a beginning of which stays
//! where the log, memory or the disk ends them. A group that is open at the end of a script is closed, and where the input or the
//! output fails nothing of it stays; nothing does of one that a line gives up, for which the store is opened again. A run may tend
//! its store ([`Tending`]): then before each line that is read outside a group the upkeep is done that a pace finds due, and the
//! line is answered from the stage behind it (`IsTendedTo`). Laws say which answer a line gets
//! ([`a_line_gets_the_answer_of_its_cause`], [`a_backup_line_gets_the_answer_of_its_cause`]), and that what was printed tells the
//! answers ([`the_lines_said_are_the_answers`]).
//!
//! A run may make a backup on a second machine, beside its lines (`IsBackupOfRun`): it stands for the first commands that the answer
//! `saved` counts. Before a line that ends the backup a crash leaves no store there, and then none or the one that is saved; only the
//! lines of a backup do anything with the second machine, and a store that was there as the run began stays as it is. What is said
//! of the first machine holds whatever the second one does. What is noted ([`Notes`]) is how many lines were taken, and the first
//! that is bad ([`BadLine`]).
//!
//! It depends on shell_base, which opens the store, on script_lines for the lines and their answers, on backup_copy, on the
//! clients of trees, hash files, maps and applications, and on store_engine and what is below it.
#![tactic(auto)]

mod answers;
mod asking;
mod bad_line;
mod forms;
mod grouping;
mod line;
mod line_answers;
mod making;
mod map_asking;
mod map_making;
mod notes;
mod outcome;
mod running;
mod saving;
mod say;
mod script;
mod tending;
mod upkeep;

pub use bad_line::{BadCause, BadLine};
pub use line_answers::{
    a_backup_line_gets_the_answer_of_its_cause, a_line_gets_the_answer_of_its_cause,
    the_lines_said_are_the_answers,
};
pub use notes::Notes;
pub use running::run;
pub use tending::Tending;
