//! How names are hashed. Clients choose them: SipHash, whose keys nobody outside knows, so that nobody can choose
//! names that fall into one place.
use std::hash::{BuildHasher, DefaultHasher, RandomState};

/// What makes a hash for each name, by its keys.
#[derive(Clone, Copy)]
pub(crate) struct NameHashing {
    initial: DefaultHasher,
}

impl NameHashing {
    /// By keys that everybody knows: where nobody who chooses names would tilt it.
    pub(crate) fn with_fixed_keys() -> NameHashing {
        NameHashing {
            initial: DefaultHasher::new(),
        }
    }

    /// By the keys of a state.
    pub(crate) fn with_state(state: RandomState) -> NameHashing {
        NameHashing {
            initial: state.build_hasher(),
        }
    }
}

impl BuildHasher for NameHashing {
    type Hasher = DefaultHasher;

    ghost build_hasher = { λ s. s.initial };

    fn build_hasher(&self) -> DefaultHasher {
        self.initial
    }
}
