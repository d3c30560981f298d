//! Names of members, spelled into the text of the line that tells them (RFC 2812, section 3.2.5).
ghost use Rattle.std.specs.Prelude.{◌≡◌, ◌∷◌, ◌++◌, [], length, nat_le, IfOk, OnOk};
ghost use Rattle.numerics.specs.declared.numeric.Numeric.TheVariants.{NamReply};
ghost use Rattle.numerics.specs.Numerics.{numeric as numeric_line, names_text};

use line_grammar::{Octets, OctetsList};
use numerics::{Line, Numeric, Prefix};
use snapshots::{GhostChange, Snapshot, apply, blank, copy_of};
use std::alloc::{AllocError, Global};
use std::collections::LinkedList;
use std::marker::Model;

/// A member's nickname, with the mark of its rank.
#[derive(Drop)]
pub(crate) struct MemberName<'a> {
    pub rank: Option<Prefix>,
    pub nick: &'a [u8],
}

impl<'a> Model for MemberName<'a> {
    ghost use Rattle.std.specs.Prelude.{List, ℕ, ◌++◌};
    ghost use Rattle.numerics.specs.Numerics.{marks};

    ghost Value = { List ℕ };

    ghost view = { λ a. marks a.rank ++ a.nick.now };
}

impl MemberName<'_> {
    /// How many octets it has.
    fn len(&self) -> usize
        ensures { result ≡ length self.now }
    {
        match self.rank {
            Some(_) => self.nick.len() + 1,
            None => self.nick.len(),
        }
    }

    /// Adds its octets.
    fn push_to(&self, text: &mut Vec<u8>) -> Result<(), AllocError>
        ensures { OnOk result (text.new.items ≡ text.old.items ++ self.now) }
    {
        if let Some(rank) = self.rank {
            text.push(rank.mark())?;
        }
        text.extend_from_slice(self.nick)
    }
}

/// A line of names that is being filled: their text alone. Clauses see its names, of which none is kept. It has one
/// at least.
#[derive(Drop)]
pub(crate) struct NameLine {
    text: Vec<u8>,
    names: Snapshot<LinkedList<Octets>>,
}

impl Model for NameLine {
    ghost use Rattle.std.specs.Prelude.{◌≡◌, ◌<◌, List, ℕ, length};
    ghost use Rattle.numerics.specs.Numerics.{names_text};

    ghost Value = { List (List ℕ) };

    ghost view = { λ a. a.names.value };

    ghost invariant = { λ a. (a.text.items ≡ names_text a.names.value) × (0 < length a.names.value) };
}

// A name is added, as the last.
struct AddsName;

impl<'a> GhostChange<LinkedList<Octets>, MemberName<'a>> for AddsName {
    ghost use Rattle.std.specs.Prelude.{◌++◌, ◌∷◌, []};

    ghost changed = { λ ns n. ns ++ n ∷ [] };
}

impl NameLine {
    /// A line of one name, with room for so many octets.
    #[tactic(auto, using(crate::proofs::NameLines::one_spaced))]
    pub(crate) fn new(
        alloc: Global,
        room: usize,
        name: &MemberName<'_>,
    ) -> Result<NameLine, AllocError>
        ensures { IfOk result (λ l. l ≡ name.now ∷ []) }
    {
        let mut text = Vec::with_capacity(alloc, room)?;
        name.push_to(&mut text)?;
        let mut names = blank(alloc);
        apply::<AddsName, LinkedList<Octets>, MemberName<'_>>(&mut names, name);
        Ok(NameLine { text, names })
    }

    /// Whether so many octets have room for one name more.
    #[tactic(auto, using(crate::proofs::NameLines::more_octets))]
    pub(crate) fn takes(&self, name: &MemberName<'_>, room: usize) -> bool
        ensures { result ≡ nat_le (length (names_text (self.now ++ name.now ∷ []))) room }
    {
        let octets = self.text.len();
        octets < room && name.len() < room - octets
    }

    /// The line with one name more, after a space.
    #[tactic(auto, using(crate::proofs::NameLines::more_spaced))]
    pub(crate) fn with(self, name: &MemberName<'_>) -> Result<NameLine, AllocError>
        ensures { IfOk result (λ l. l ≡ self ++ name.now ∷ []) }
    {
        let NameLine {
            mut text,
            mut names,
        } = self;
        text.push(b' ')?;
        if let Some(rank) = name.rank {
            text.push(rank.mark())?;
        }
        text.extend_from_slice(name.nick)?;
        apply::<AddsName, LinkedList<Octets>, MemberName<'_>>(&mut names, name);
        Ok(NameLine { text, names })
    }

    /// Its names, for clauses.
    pub(crate) fn names(&self) -> Snapshot<LinkedList<Octets>>
        ensures { result.value ≡ self.now }
    {
        copy_of(&self.names)
    }

    /// The line that tells somebody the names of a channel: it spells the text as one name.
    #[tactic(auto, using(crate::proofs::NameLines::told_as_one))]
    pub(crate) fn numeric(
        self,
        alloc: Global,
        server: &[u8],
        to: &[u8],
        secret: bool,
        channel: &Octets,
    ) -> Result<Line, AllocError>
        ensures { IfOk result (λ l. l
            ≡ numeric_line server.now to.now (NamReply secret channel.now self)) }
    {
        let channel = channel.clone()?;
        let mut names = Vec::with_capacity(alloc, 1)?;
        names.push(Octets::from_vec(self.text))?;
        let numeric = Numeric::NamReply {
            secret,
            channel,
            names: OctetsList::from_vec(names),
        };
        numeric.line(alloc, server, to)
    }
}
