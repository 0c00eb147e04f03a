use page_ops::Text;

/// A pair that is put among cells: at the place of its key, where a cell may have that key already.
#[derive(Clone, Copy)]
pub(crate) struct Pair<'a> {
    pub(crate) key: &'a Text,
    pub(crate) value: &'a Text,
    pub(crate) place: usize,
    pub(crate) there: bool,
}
