// What the hashers of a map have read before its keys.
use std::hash::{BuildHasher, DefaultHasher};

/// What each hasher of a map has read before it reads a key (own choice). Whoever writes a text picks the keys of the
/// maps that are filled from it. Where the hashers have read all of the text, no keys whose hashes collide can be
/// searched out for it: with the keys the hashes change.
#[derive(Clone, Copy)]
pub struct Salt {
    pub read: DefaultHasher,
}

impl BuildHasher for Salt {
    type Hasher = DefaultHasher;

    ghost build_hasher = { λ s. s.read };

    fn build_hasher(&self) -> DefaultHasher {
        self.read
    }
}
