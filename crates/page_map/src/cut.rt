use page_ops::Text;
use std::marker::Model;

/// A page that is to be cut: the cells from a place on go to a new page, which is named by a key. Cells past its span go first.
#[derive(Drop)]
pub struct Cut {
    pub(crate) object: u32,
    pub(crate) level: u8,
    pub(crate) place: u16,
    pub(crate) count: u16,
    pub(crate) has_past: bool,
    pub(crate) key: Text,
}

impl Model for Cut {
    ghost use Rattle.page_map.specs.Splits.{Split};

    ghost Value = { Split };

    ghost view = { λ c. record { object = c.object; level = c.level; place = c.place; count = c.count; has_past = c.has_past; key = c.key } };
}
