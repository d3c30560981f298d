//! The tags of tag data.
ghost use Rattle.std.specs.Prelude.{◌≡◌};
ghost use Rattle.std.specs.Option.{option_copied};

use crate::tag::Tag;
use std::marker::Model;

/// The tags that count, in the order of the line.
#[derive(Debug, Drop)]
pub struct Tags {
    tags: Vec<Tag>,
}

impl Model for Tags {
    ghost use Rattle.std.specs.Prelude.{List};
    ghost use Rattle.message_tags.specs.declared.tag.Tag.{Tag};

    ghost Value = { List Tag };

    ghost view = { λ a. a.tags.items };
}

impl Tags {
    ghost use Rattle.message_tags.specs.Tags.{last_value};

    /// The value of the last tag with a key.
    #[tactic(auto, unfolding(crate::specs::Tags::last_value))]
    pub fn get(&self, key: &[u8]) -> Option<&[u8]>
        ensures { option_copied result ≡ last_value self.now key.now }
    {
        self.tags
            .iter()
            .rev()
            .find(|tag| tag.key.as_slice() == key)
            .map(|tag| tag.value.as_slice())
    }

    pub(crate) fn from_vec(tags: Vec<Tag>) -> Tags
        ensures { result ≡ tags.items }
    {
        Tags { tags }
    }

    /// The tags as a slice.
    pub fn as_slice(&self) -> &[Tag]
        ensures { result.now ≡ self.now }
    {
        &self.tags
    }
}
