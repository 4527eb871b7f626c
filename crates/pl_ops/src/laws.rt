//! Laws of tables.
ghost use Rattle.std.specs.Prelude.{◌≡◌, List, [], ◌∷◌, ◌++◌, Some};
ghost use Rattle.pl_ops.specs.Tables.{Declaration, operator, class_of, unless_zero};

/// The operator that was declared last is the one that is found, unless its priority is 0.
pub fn table_law()
    ensures { (table : List Declaration) (d : Declaration) → operator (table ++ d ∷ []) (class_of d.op.kind) d.name ≡ unless_zero (Some d.op) }
{}
