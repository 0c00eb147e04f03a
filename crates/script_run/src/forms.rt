// The form of a line, by its first word.

use script_lines::line_forms;

/// The form of the lines whose first field is this word. None where there are none.
pub fn line_form(word: &[u8]) -> Option<&'static str> {
    for form in line_forms() {
        if form.text.split(' ').next()?.as_bytes() == word {
            return Some(form.text);
        }
    }
    None
}
