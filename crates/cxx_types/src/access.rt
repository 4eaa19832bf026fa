//! Who may use a member, function, constructor or destructor of a class.

ghost use Rattle.std.specs.Prelude.{◌≡◌};
ghost use Rattle.cxx_types.specs.Access as spec;

use agxx_base::ClassId;
use cxx_names::{Declared, Variable};
use cxx_tree::Access;

fn may_use(
    declared: &Declared,
    access: Access,
    viewer: ClassId,
    holder: ClassId,
    owner: ClassId,
) -> bool
    ensures { result ≡ spec.may_use declared.now access viewer holder owner }
{
    match access {
        Access::Public => true,
        Access::Protected => declared.derives(viewer, owner) && declared.derives(holder, viewer),
        Access::Private => viewer.0 == owner.0 && holder.0 == owner.0,
    }
}

/// Whether what `owner` declares may be used in a function of the class `viewer`, if of any, on an object of the static
/// class `holder`.
pub(crate) fn is_accessible(
    declared: &Declared,
    access: Access,
    viewer: Option<ClassId>,
    holder: ClassId,
    owner: ClassId,
) -> bool
    ensures { result ≡ spec.is_accessible declared.now access viewer holder owner }
{
    match viewer {
        None => matches!(access, Access::Public),
        Some(viewer) => may_use(declared, access, viewer, holder, owner),
    }
}

/// Whether what `owner` declares may be used by its bare name.
pub(crate) fn own_is_accessible(
    declared: &Declared,
    access: Access,
    viewer: Option<ClassId>,
    owner: ClassId,
) -> bool
    ensures { result ≡ spec.own_is_accessible declared.now access viewer owner }
{
    match viewer {
        None => matches!(access, Access::Public),
        Some(viewer) => may_use(declared, access, viewer, viewer, owner),
    }
}

/// Whether a variable may be used by its bare name.
pub(crate) fn variable_is_accessible(
    declared: &Declared,
    viewer: Option<ClassId>,
    variable: Option<Variable>,
) -> bool
    ensures { result ≡ spec.variable_is_accessible declared.now viewer variable }
{
    match variable {
        Some(Variable::Member(owner, access, _)) => {
            own_is_accessible(declared, access, viewer, owner)
        }
        _ => true,
    }
}
