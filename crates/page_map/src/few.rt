use page_ops::PageOp;

/// The commands of a turn, in their order: one, two or three.
#[derive(Drop)]
pub struct Few {
    pub first: PageOp,
    pub second: Option<PageOp>,
    pub third: Option<PageOp>,
}
