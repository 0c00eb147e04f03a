//! The first bytes of the codes.

pub(crate) const PUT: u8 = 21;

pub(crate) const SET: u8 = 22;

pub(crate) const DELETE: u8 = 23;

pub(crate) const PART: u8 = 24;

pub(crate) const ABSORB: u8 = 25;

pub(crate) const JOIN: u8 = 26;

pub(crate) const KEEP: u8 = 27;

pub(crate) const TURN: u8 = 28;

pub(crate) const TURN_TWO: u8 = 29;

pub(crate) const ROOT: u8 = 30;

pub(crate) const FREE: u8 = 31;
