//! What is told of each of a list.
ghost use Rattle.std.specs.Prelude.{◌≡◌, OnOk};
ghost use Rattle.std.specs.List.{flat_map};
ghost use Rattle.query_commands.specs.Telling.{telling_more};

use crate::reply_builder::ReplyBuilder;
use std::alloc::AllocError;

/// What tells something of one of a list.
pub(crate) trait AnswersEach<T> {
    ghost use Rattle.std.specs.Prelude.{◌≡◌, List, OnOk};
    ghost use Rattle.numerics.specs.declared.numeric.Numeric.{Numeric};
    ghost use Rattle.query_commands.specs.Telling.{telling_more};

    /// The numerics of one.
    ghost told_of: { Self → T → List Numeric };

    /// Tells them.
    fn tell_of(&self, telling: &mut ReplyBuilder<'_>, one: &T) -> Result<(), AllocError>
        ensures { OnOk result (telling.new ≡ telling_more telling.old (told_of self.now one.now)) };
}

/// Tells what there is to tell of each of a list, in its order.
#[tactic(auto, using(crate::proofs::Told::more_more))]
pub(crate) fn tell_of_each<T, R: AnswersEach<T>>(
    row: &R,
    telling: &mut ReplyBuilder<'_>,
    ones: &[T],
) -> Result<(), AllocError>
    ensures { OnOk result
        (telling.new ≡ telling_more telling.old (flat_map (R.told_of row.now) ones.now)) }
{
    for one in ones {
        row.tell_of(telling, one)?;
    }
    Ok(())
}
