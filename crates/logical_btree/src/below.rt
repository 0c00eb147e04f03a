/// Where a way to a key goes on from an inner node.
#[derive(Drop)]
pub struct Below {
    /// The child under which the key stands.
    pub child: u32,
    /// The node has seven keys.
    pub full: bool,
}
