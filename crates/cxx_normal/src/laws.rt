//! Laws of the normal form.

ghost use Rattle.cxx_normal.specs.Normal.{NormalIsIdempotent, NumberingChangesNumbers};
ghost use Rattle.cxx_normal.specs.Normal.{NumbersAreCounted, LabelsKeepAccess};

/// The normal form of a normal form is itself, to the last place and number.
pub fn normal_is_idempotent()
    ensures { NormalIsIdempotent }
{}

/// To number the nodes of a program anew changes nothing but the numbers.
pub fn numbering_changes_numbers()
    ensures { NumberingChangesNumbers }
{}

/// A program with n nodes gets the numbers below n, where n is what `node_count` counts.
pub fn numbers_are_counted()
    ensures { NumbersAreCounted }
{}

/// Labels made anew change the access of no item.
pub fn labels_keep_access()
    ensures { LabelsKeepAccess }
{}
