//! Channels to join (RFC 2812, section 3.2.1).
ghost use Rattle.std.specs.Prelude.{◌≡◌, ◌↔◌, [], length, IsTrue};

use line_grammar::Octets;
use std::alloc::AllocError;
use std::marker::Model;

/// A channel to join.
#[derive(Drop)]
pub struct JoinTarget {
    /// Its name, as given.
    pub channel: Octets,
    /// The key that was given for it. Empty where there is none.
    pub key: Octets,
}

/// Channels to join, in order.
#[derive(Drop)]
pub struct JoinTargets {
    targets: Vec<JoinTarget>,
}

impl Model for JoinTargets {
    ghost use Rattle.std.specs.Prelude.{List};
    ghost use Rattle.command_params.specs.declared.join_targets.JoinTarget.{JoinTarget};

    ghost Value = { List JoinTarget };

    ghost view = { λ a. a.targets.items };
}

impl JoinTargets {
    /// The channels of a vector.
    pub fn from_vec(targets: Vec<JoinTarget>) -> JoinTargets
        ensures { result ≡ targets.items }
    {
        JoinTargets { targets }
    }

    /// How many channels there are.
    pub fn len(&self) -> usize
        ensures { result ≡ length self.now }
    {
        self.targets.len()
    }

    /// Whether there is none.
    pub fn is_empty(&self) -> bool
        ensures { IsTrue result ↔ (self.now ≡ []) }
    {
        self.targets.is_empty()
    }

    /// The channels as a slice.
    pub fn as_slice(&self) -> &[JoinTarget]
        ensures { result.now ≡ self.now }
    {
        &self.targets
    }
}
