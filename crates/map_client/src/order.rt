/// Which way pairs are read: by rising key, or by falling key.
#[derive(Clone, Copy)]
pub(crate) enum Order {
    Rising,
    Falling,
}
