// Which line of a script was bad.
use redo_shell::Notes;

/// Says on standard error which line of the script was the first that was bad, if one was, and what is wrong with it.
pub fn tell_bad_line(rt: HostRuntime, notes: &Notes) {
    if let Some(line) = notes.first_bad() {
        let number = line.number;
        let cause = line.cause;
        let _told = eprintln!(rt; "redo: line {number} is bad: {cause}");
    }
}
