//! What is called on threads and mutexes, in place of a statement that calls a function.

ghost use Rattle.std.specs.Prelude.{◌≡◌};
ghost use Rattle.cxx_core.specs.StmtView.{mutex_core, stmt_core};
ghost use Rattle.cxx_core.specs.Meanings as spec;

use crate::elaborator::Elaborator;
use agxx_base::{NameId, Place};
use cxx_core::{Mutex, Stmt};
use cxx_names::{Table, Thing, Variable, is_text};
use cxx_tree::{Base, Callee, Ref};

impl<'a> Elaborator<'a> {
    fn thread_stmt(&self, at: Place, name: NameId, word: NameId) -> Stmt
        ensures { stmt_core result ≡ spec.thread_stmt self.now at name.0 word.0 }
    {
        if is_text(self.names, word, b"join".as_slice()) {
            Stmt::Join(at, name)
        } else {
            Stmt::Wrong(at)
        }
    }

    fn mutex_stmt(&self, at: Place, mutex: Mutex, word: NameId) -> Stmt
        ensures { stmt_core result ≡ spec.mutex_stmt self.now at (mutex_core mutex) word.0 }
    {
        if is_text(self.names, word, b"lock".as_slice()) {
            Stmt::Lock(at, mutex)
        } else if is_text(self.names, word, b"unlock".as_slice()) {
            Stmt::Unlock(at, mutex)
        } else {
            Stmt::Wrong(at)
        }
    }

    fn on_variable(
        &self,
        at: Place,
        reference: Ref,
        word: NameId,
        variable: Option<Variable>,
        call: Stmt,
    ) -> Stmt
        ensures { stmt_core result ≡ spec.on_variable self.now at reference word.0 variable (stmt_core call) }
    {
        let name = reference.name.item;
        match variable {
            Some(Variable::Local(Thing::Thread)) => self.thread_stmt(at, name, word),
            Some(Variable::Member(class, _, Thing::Mutex)) => {
                self.mutex_stmt(at, Mutex::Member(class, name), word)
            }
            Some(Variable::Global(Thing::Mutex)) => {
                self.mutex_stmt(at, Mutex::Global(name), word)
            }
            _ => call,
        }
    }

    /// What a call that begins at a place does on a thread or a mutex, or else the call itself.
    pub(crate) fn on_callee(
        &self,
        scope: &Table<Thing>,
        at: Place,
        callee: Callee,
        call: Stmt,
    ) -> Stmt
        ensures { stmt_core result ≡ spec.on_callee self.now scope.now at callee (stmt_core call) }
    {
        match callee {
            Callee::Member(selector) => match selector.base {
                Base::Dot(reference) => {
                    let variable = self.variable_at(scope, reference);
                    self.on_variable(at, reference, selector.name.item, variable, call)
                }
                _ => call,
            },
            _ => call,
        }
    }
}
