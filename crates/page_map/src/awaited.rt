use page_ops::Text;

/// An object that a map has to have as a page of a level, with keys from one on, and below another where there is one.
#[derive(Drop)]
pub struct Awaited {
    pub object: u32,
    pub(crate) level: u8,
    pub(crate) from: Text,
    pub(crate) to: Option<Text>,
}
