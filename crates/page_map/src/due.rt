use crate::cut::Cut;

/// What is due before a leaf has room for a pair.
#[derive(Drop)]
pub enum Due {
    /// It has room.
    Fits,
    /// The root is cut.
    Asks(Cut),
    /// A page is cut, and the page above it names the new one behind the cell of a place.
    Granted { cut: Cut, page: u32, place: u16 },
}
