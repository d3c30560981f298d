//! A line that is no part of an answer, for receivers of any capabilities.
ghost use Rattle.std.specs.Prelude.{◌≡◌, ◌++◌, ◌&&◌, ◌==◌, length, not, IfOk, IfSome, OnOk};
ghost use Rattle.numerics.specs.Outgoing.{octets};
ghost use Rattle.registration.specs.declared.caps.Cap.TheVariants.{MessageTags};
ghost use Rattle.registration.specs.Caps.{is_on};
ghost use Rattle.labels_batches.specs.Spellings.{spelled_for, spelled_with};

use crate::Text;
use crate::rendering::{end, push_moment, push_tag};
use chronicle::RecordMoment;
use line_grammar::Octets;
use numerics::Line;
use registration::{Cap, Caps};
use snapshots::Snapshot;
use std::alloc::{AllocError, Global};
use std::marker::Model;

/// A line at a moment: its client's tags, and its octets without tags.
#[derive(Drop)]
struct Untagged {
    alloc: Global,
    line: Snapshot<Line>,
    moment: RecordMoment,
    tags: Octets,
    plain: Text,
}

impl Untagged {
    /// Whether a receiver of these capabilities takes tags of its client.
    fn has_tags_for(&self, caps: Caps) -> bool
        requires { self.now.tags ≡ self.now.line.value.tags }
        ensures { result ≡ (is_on caps MessageTags && not (length self.now.line.value.tags == 0)) }
    {
        caps.contains(Cap::MessageTags) && !self.tags.is_empty()
    }

    /// The line with its moment or without, and with its tags or without.
    fn spell(&self, time: bool, tags: bool) -> Result<Octets, AllocError>
        requires octets { self.now.plain ≡ octets self.now.line.value }
        requires tags { self.now.tags ≡ self.now.line.value.tags }
        ensures { IfOk result
            (λ t. t ≡ spelled_with time tags self.now.moment self.now.line.value) }
    {
        let mut text = Octets::from_vec(Vec::new(self.alloc));
        if time {
            push_moment(self.alloc, &mut text, self.moment)?;
        }
        if tags {
            push_tag(&mut text, self.tags.as_slice())?;
        }
        end(&mut text)?;
        text.extend_from_slice(self.plain.as_slice())?;
        Ok(text)
    }
}

/// A spelling: the one that is kept, or one that is made now and kept.
fn kept_or_made(
    kept: &mut Option<Text>,
    line: &Untagged,
    time: bool,
    tags: bool,
) -> Result<Text, AllocError>
    requires octets { line.now.plain ≡ octets line.now.line.value }
    requires tags { line.now.tags ≡ line.now.line.value.tags }
    requires kept { IfSome kept.old
        (λ t. t ≡ spelled_with time tags line.now.moment line.now.line.value) }
    ensures kept { IfSome kept.new
        (λ t. t ≡ spelled_with time tags line.now.moment line.now.line.value) }
    ensures text { IfOk result
        (λ t. t ≡ spelled_with time tags line.now.moment line.now.line.value) }
{
    if let Some(spelling) = kept {
        return spelling.clone();
    }
    let spelling = Text::new(line.alloc, line.spell(time, tags)?)?;
    let text = spelling.clone()?;
    *kept = Some(spelling);
    Ok(text)
}

/// A line at its record's moment, with the spellings of it that were asked for so far: each is made once, and shared
/// by all that take it.
#[derive(Drop)]
pub struct Spellings {
    untagged: Untagged,
    timed: Option<Text>,
    tagged: Option<Text>,
    timed_and_tagged: Option<Text>,
}

impl Model for Spellings {
    ghost use Rattle.labels_batches.specs.Spellings.{AreOf, Spelled};

    ghost Value = { Spelled };

    ghost view = { λ a. record { line = a.untagged.line.value; moment = a.untagged.moment } };

    ghost invariant = { λ a. AreOf a.untagged.line.value a.untagged.moment a.untagged.tags
        a.untagged.plain a.timed a.tagged a.timed_and_tagged };
}

impl Spellings {
    /// No spelling of a line yet but that without tags.
    pub fn new(alloc: Global, line: Line, moment: RecordMoment) -> Result<Spellings, AllocError>
        ensures { IfOk result (λ s. s ≡ record { line = line; moment = moment }) }
    {
        let told = Snapshot::of(&line);
        let (tags, octets) = line.into_parts();
        let untagged = Untagged {
            alloc,
            line: told,
            moment,
            tags,
            plain: Text::new(alloc, octets)?,
        };
        Ok(Spellings {
            untagged,
            timed: None,
            tagged: None,
            timed_and_tagged: None,
        })
    }

    fn text_with(&mut self, time: bool, tags: bool) -> Result<Text, AllocError>
        ensures same { self.new ≡ self.old }
        ensures text { IfOk result (λ t. t ≡ spelled_with time tags self.old.moment self.old.line) }
    {
        let line = &self.untagged;
        match (time, tags) {
            (false, false) => line.plain.clone(),
            (true, false) => kept_or_made(&mut self.timed, line, true, false),
            (false, true) => kept_or_made(&mut self.tagged, line, false, true),
            (true, true) => kept_or_made(&mut self.timed_and_tagged, line, true, true),
        }
    }

    /// The line as a receiver of these capabilities takes it: with its moment for who takes server-time, and with
    /// its client's tags for who takes message-tags.
    pub fn text_for(&mut self, caps: Caps) -> Result<Text, AllocError>
        ensures same { self.new ≡ self.old }
        ensures text { IfOk result (λ t. t ≡ spelled_for caps self.old.moment self.old.line) }
    {
        let tags = self.untagged.has_tags_for(caps);
        self.text_with(caps.contains(Cap::ServerTime), tags)
    }
}
