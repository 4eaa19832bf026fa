//! Guards, found by the names of classes.

ghost use Rattle.std.specs.Prelude.{◌≡◌, [], IfOk};
ghost use Rattle.guards.specs.Guarding.{kind_of};
ghost use Rattle.protect.specs.Kinds.{kinds};

use agxx_base::{Memory, NameId};
use cxx_names::Table;
use guards::{Guard, GuardKind};
use std::alloc::Global;
use std::marker::Model;

/// Guards in order. To find that of a class takes the same time however many there are.
#[derive(Drop)]
pub(crate) struct Kinds<'g> {
    guards: &'g [Guard],
    table: Table<GuardKind>,
}

impl<'g> Model for Kinds<'g> {
    ghost use Rattle.std.specs.Prelude.{◌≡◌, List};
    ghost use Rattle.guards.specs.declared.guard.Guard.{Guard};
    ghost use Rattle.protect.specs.Kinds.{kinds};

    ghost Value = { List Guard };

    ghost view = { λ k. k.guards.now };

    ghost invariant = { λ k. k.table ≡ kinds k.guards.now };
}

fn table_of(alloc: Global, guards: &[Guard]) -> Result<Table<GuardKind>, Memory>
    ensures { IfOk result (λ table. table ≡ kinds guards.now) }
{
    let mut table = Table::new(alloc);
    for guard in guards {
        table.declare(guard.class, guard.kind)?;
    }
    Ok(table)
}

impl<'g> Kinds<'g> {
    pub(crate) fn of(alloc: Global, guards: &'g [Guard]) -> Result<Kinds<'g>, Memory>
        ensures { IfOk result (λ k. k ≡ guards.now) }
    {
        Ok(Kinds {
            guards,
            table: table_of(alloc, guards)?,
        })
    }

    /// The code that guards a class.
    #[tactic(auto, using(crate::proofs::KindsFound::kind_found))]
    pub(crate) fn kind(&self, class: NameId) -> Option<GuardKind>
        ensures { result ≡ kind_of self.now class }
    {
        self.table.find(class).copied()
    }
}
