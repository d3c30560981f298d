//! What a book asks of an outbox.
use crate::counted_ends::Unsent;
use crate::rule::Log;
use deliveries::Item;

/// Why an item wasn't put.
#[derive(Clone, Copy, Debug, PartialEq)]
pub enum PutFault {
    /// The outbox has no room for it.
    Full,
    /// The end that takes is gone.
    Cut,
}

/// An item that comes back, since it wasn't put, and which channel was found full for it.
pub type NotPut = Unsent<Item, Log>;

/// A queue of items with a bound. One end puts, the other takes.
pub trait Outbox: Drop {
    ghost use Rattle.std.specs.Prelude.{◌≡◌, ◌≤◌, ◌∷◌, [], ◌++◌, ℕ, Bool, true, List, length, Option, OnOk, IfErr};
    ghost use Rattle.crossbeam_channel.specs.Claims.{Pass};
    ghost use Rattle.outbox.specs.declared.rule.Log.{Log};
    ghost use Rattle.deliveries.specs.declared.item.Item.{Item};
    ghost use Rattle.deliveries.specs.Items.{Continues};
    ghost use Rattle.outbox.specs.declared.queue.PutFault.{PutFault};
    ghost use Rattle.outbox.specs.declared.queue.PutFault.TheVariants.{Full, Cut};

    /// What takes the items out.
    type Taker;

    /// What tells one outbox from another.
    type Name;

    /// All items that were ever put.
    ghost sent: { Self → List Item };

    /// How many items may wait.
    ghost room: { Self → ℕ };

    /// Which outbox it is.
    ghost name: { Self → Self.Name };

    /// Which outbox a taker is of.
    ghost taker_of: { Self.Taker → Self.Name };

    /// All items that were ever taken.
    ghost taken: { Self → Self.Taker → List Item };

    /// Whether the end that takes may go by itself.
    ghost may_be_cut: { Bool };

    /// That an item is put into the one, which then is the other.
    ghost accepts: { Self → Item → Self → Type 0 };

    /// That an item isn't put for this cause.
    ghost refuses: { Self → PutFault → Type 0 };

    /// That a fault is so, where this channel was found full for the item that comes back.
    ghost shows: { Self → PutFault → Option (Pass Item Log) → Type 0 };

    /// Puts an item at the end. It takes no memory, and a fault gives the item back and changes nothing.
    fn put(&mut self, item: Item) -> Result<(), (PutFault, NotPut)>
        requires next { Continues (sent self.old) item }
        ensures same_name { name self.new ≡ name self.old }
        ensures same_room { room self.new ≡ room self.old }
        ensures same_taken { (w : Self.Taker) → taken self.new w ≡ taken self.old w }
        ensures ok { OnOk result (sent self.new ≡ sent self.old ++ item ∷ []) }
        ensures accepted { OnOk result (accepts self.old item self.new) }
        ensures err { IfErr result (λ e. (e.1.message ≡ item) × (self.new ≡ self.old)) }
        ensures refused { IfErr result (λ e. refuses self.old e.0) }
        ensures shown { IfErr result (λ e. shows self.old e.0 e.1.full) }
        ensures full { IfErr result (λ e. e.0 ≡ Full → room self.old ≤ length (sent self.old)) }
        ensures cut { IfErr result (λ e. e.0 ≡ Cut → may_be_cut ≡ true) };

    /// Ends the outbox, and answers how many items are left in it. It takes no memory.
    fn close(self, taker: Self::Taker) -> u64
        requires { name self ≡ taker_of taker }
        ensures { (left : List Item) × (sent self ≡ taken self taker ++ left)
            × (result ≡ length left) };
}
