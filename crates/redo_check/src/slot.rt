/// What the front of a slot says. A closed slot has the identifier 0 and no bytes.
#[derive(Clone, Copy)]
pub struct Slot {
    pub is_open: bool,
    /// The number of the record that wrote the value.
    pub lsn: u64,
    /// How many bytes the value has.
    pub length: u32,
}

/// A slot where it stands.
#[derive(Clone, Copy)]
pub struct Found {
    pub object: u32,
    /// 0 or 1.
    pub number: u32,
    /// The place of its gate.
    pub place: u64,
    pub slot: Slot,
    /// The identifier that it may not have: that of the object's first slot, or 0.
    pub rival: u64,
    /// Whether the object has this slot's value.
    pub holds: bool,
}
