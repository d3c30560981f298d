//! What a command does for each of a list, one after another.
ghost use Rattle.std.specs.Prelude.{◌≡◌, OnOk};
ghost use Rattle.transactions.specs.TransactionView.{grown};
ghost use Rattle.channel_commands.specs.Each.{each};

use std::alloc::AllocError;
use transactions::Transaction;

/// What a command does for one of a list.
pub(crate) trait DoesFor<T> {
    ghost use Rattle.std.specs.Prelude.{◌≡◌, List, OnOk};
    ghost use Rattle.registration.specs.declared.settings.Settings.{Settings};
    ghost use Rattle.roster.specs.declared.deed.Deed.{Deed};
    ghost use Rattle.transactions.specs.declared.effect.Effect.{Effect};
    ghost use Rattle.transactions.specs.TransactionView.{grown};

    /// Its effects, by the settings, the facts before the record, and those that it finds.
    ghost effects_of: { Self → Settings → List Deed → List Deed → T → List Effect };

    /// Does it.
    fn do_for(&self, tx: &mut Transaction, one: &T) -> Result<(), AllocError>
        ensures { OnOk result (tx.new ≡ grown tx.old
            (effects_of self.now tx.old.settings tx.old.base tx.old.facts one.now)) };
}

/// Does it for each of a list, in its order. Each finds the facts that those before it leave.
pub(crate) fn do_for_each<T, R: DoesFor<T>>(
    command: &R,
    tx: &mut Transaction,
    ones: &[T],
) -> Result<(), AllocError>
    ensures { OnOk result (tx.new ≡ grown tx.old (each
        (R.effects_of command.now tx.old.settings tx.old.base) tx.old.facts ones.now)) }
{
    for one in ones {
        command.do_for(tx, one)?;
    }
    Ok(())
}
