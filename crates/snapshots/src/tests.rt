//! What a caller writes: a struct whose model shows its snapshots, and no proof.
ghost use Rattle.std.specs.Prelude.{◌≡◌, ◌∷◌, [], ◌++◌, ℕ};

use crate::{GhostChange, Snapshot, append, append_all, apply, blank, copy_of};
use std::alloc::Global;
use std::collections::LinkedList;
use std::marker::Model;
use std::mem::size_of;
use std::test::Fail;

#[derive(Drop)]
enum Mood {
    Quiet,
    Loud(u8),
}

// The last octets, and all octets ever, which the program does not keep.
#[derive(Drop)]
struct Listener {
    last: Vec<u8>,
    mood: Mood,
    heard: Snapshot<LinkedList<u8>>,
    count: Snapshot<u64>,
}

impl Model for Listener {
    ghost use Rattle.std.specs.Prelude.{List, ℕ};

    ghost Value = { List ℕ × ℕ };

    ghost view = { λ a. (a.heard.value, a.count.value) };
}

// One more was heard.
struct Counts;

impl GhostChange<u64, u8> for Counts {
    ghost use Rattle.std.specs.Prelude.{◌+◌};

    ghost changed = { λ n b. n + 1 };
}

impl Listener {
    ghost use Rattle.std.specs.Prelude.{◌≡◌, ◌∷◌, [], ◌++◌, ◌+◌};

    fn new(alloc: Global) -> Listener
        ensures { result ≡ ([], 0) }
    {
        Listener {
            last: Vec::new(alloc),
            mood: Mood::Quiet,
            heard: blank(alloc),
            count: Snapshot::of(&0),
        }
    }

    fn hear(&mut self, octet: u8)
        ensures { self.new ≡ (self.old.0 ++ octet ∷ [], self.old.1 + 1) }
    {
        self.mood = Mood::Loud(octet);
        append(&mut self.heard, &octet);
        apply::<Counts, u64, u8>(&mut self.count, &octet);
    }

    fn hear_all(&mut self, octets: &[u8])
        ensures { self.new ≡ (self.old.0 ++ octets.now, self.old.1) }
    {
        append_all(&mut self.heard, octets);
    }

    fn history(&self) -> Snapshot<LinkedList<u8>>
        ensures { result.value ≡ self.now.0 }
    {
        copy_of(&self.heard)
    }
}

fn heard_three(alloc: Global) -> Listener
    ensures { result ≡ (1 ∷ 2 ∷ 3 ∷ [], 1) }
{
    let mut listener = Listener::new(alloc);
    listener.hear(1);
    listener.hear_all(&[2, 3]);
    listener
}

fn sent<T: Send>(x: T) -> T {
    x
}

fn shared<T: Sync>(x: T) -> T {
    x
}

#[test]
fn tells_at_no_cost(rt: HostRuntime) -> Result<(), Fail> {
    let listener = shared(sent(heard_three(rt.alloc())));
    let history = sent(shared(listener.history()));
    let _ = &history;
    assert!(rt; listener.last.is_empty());
    assert!(rt; matches!(listener.mood, Mood::Loud(1)));
    assert_eq!(rt; size_of::<Snapshot<LinkedList<u8>>>(), 0);
    Ok(())
}
