//! Laws about tables. Each law is the contract of a function that does nothing.
ghost use Rattle.example_fields.specs.Inputs.{TablesAgree};

/// If two streams have the same visible tokens, then the tables of the two streams are equal,
/// regardless of invisible groups.
pub fn tables_agree()
    ensures { TablesAgree }
{}
