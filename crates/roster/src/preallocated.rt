//! What stands ready for deeds beside room in the tables.
ghost use Rattle.std.specs.Prelude.{◌≡◌, ◌≤◌, [], length, count_by, OnOk};
ghost use Rattle.std.specs.List.{flat_map};
ghost use Rattle.roster.specs.Lists.{made_name, keyed_name};
ghost use Rattle.roster.specs.Stands.{is_making, AreSpare};

use crate::boxed_channel::BoxedChannel;
use crate::channel_lists::copy_names;
use crate::deed::Deed;
use crate::folded_keys::copy_keys;
use crate::reserving::fill_spare;
use casemapping::Folded;
use line_grammar::Octets;
use std::alloc::{AllocError, Global};
use std::collections::VecDeque;

/// What deeds use up as they are applied.
#[derive(Drop)]
pub(crate) struct Stock {
    /// What channels that will be made are kept in.
    pub spare: Vec<BoxedChannel>,
    /// The names of channels that will be made, for the lists of those who make them.
    pub copies: VecDeque<Octets>,
    /// The folded names of channels and nicknames that deeds will give.
    pub keys: VecDeque<Folded>,
}

impl Stock {
    /// What serves no deeds.
    pub(crate) fn new(alloc: Global) -> Stock
        ensures spare { result.spare.items ≡ [] }
        ensures copies { result.copies.items ≡ [] }
        ensures keys { result.keys.items ≡ [] }
    {
        Stock {
            spare: Vec::new(alloc),
            copies: VecDeque::new(alloc),
            keys: VecDeque::new(alloc),
        }
    }

    /// What serves these deeds takes the place of what it has. An `Err` may leave anything.
    pub(crate) fn fill(&mut self, alloc: Global, deeds: &[Deed]) -> Result<(), AllocError>
        ensures enough { OnOk result (count_by is_making deeds.now ≤ length self.new.spare.items) }
        ensures empty { OnOk result (AreSpare (length deeds.now) self.new.spare.items) }
        ensures copies { OnOk result (self.new.copies.items ≡ flat_map made_name deeds.now) }
        ensures keys { OnOk result (self.new.keys.items ≡ flat_map keyed_name deeds.now) }
    {
        fill_spare(alloc, &mut self.spare, deeds)?;
        copy_names(&mut self.copies, deeds)?;
        copy_keys(alloc, &mut self.keys, deeds)
    }
}
