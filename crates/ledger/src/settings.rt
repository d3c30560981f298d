//! The limits of a ledger.
ghost use Rattle.std.specs.Prelude.{◌↔◌, IsTrue};
ghost use Rattle.ledger.specs.Settings.{IsWellSet};

use registration::Settings;

/// Records of a journal, at most.
pub const MAX_RECORDS: usize = 10_000_000;

/// Whether settings are within their limits, with so many records at most.
pub(crate) fn is_well_set(settings: &Settings, limit: usize) -> bool
    ensures { IsTrue result ↔ IsWellSet settings.now limit }
{
    registration::is_well_set(settings) && 1 <= limit && limit <= MAX_RECORDS
}
