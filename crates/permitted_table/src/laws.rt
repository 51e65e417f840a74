//! The law of the table.
ghost use Rattle.std.specs.Prelude.{◌≡◌, Some, slice_get};
ghost use Rattle.permitted_table.specs.declared.native.HostEntry.{HostEntry as Entry};
ghost use Rattle.permitted_table.specs.Table.{entries, entry_number};

/// A law: each entry stands at its number.
pub fn entries_are_numbered()
    ensures { (e : Entry) → slice_get entries (entry_number e) ≡ Some e }
{}
