use std::marker::Model;

/// A full node, and the node above it, unless it is the root.
#[derive(Drop)]
pub(crate) struct Full {
    pub(crate) parent: Option<u32>,
    pub(crate) child: u32,
}

impl Model for Full {
    ghost use Rattle.logical_btree.specs.Plan as plans;

    ghost Value = { plans.Full };

    ghost view = { λ f. record { parent = f.parent; child = f.child } };
}
