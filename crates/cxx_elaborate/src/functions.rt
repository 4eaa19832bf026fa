//! Functions, constructors and destructors.

ghost use Rattle.std.specs.Prelude.{◌≡◌, IfOk, OnOk, map, option_map};
ghost use Rattle.std.specs.Option.{option_copied};
ghost use Rattle.cxx_tree.specs.ProgramTree.{function_tree, init_tree, ctor_tree, dtor_tree};
ghost use Rattle.cxx_core.specs.ExprView.{exprs_core};
ghost use Rattle.cxx_core.specs.CoreStmt as core_stmt;
ghost use Rattle.cxx_core.specs.StmtView.{stmt_core, stmts_core};
ghost use Rattle.cxx_core.specs.ProgramView.{number_core, param_core, function_core};
ghost use Rattle.cxx_core.specs.ElaboratedProgram as spec;

use crate::elaborator::Elaborator;
use agxx_base::{ClassId, FnId, Memory, NameId, Place};
use cxx_core::{Expr, Function, FunctionKind, Param, Stmt};
use cxx_names::{ClassInfo, Signature, Table, Thing, ValueType};
use cxx_tree::{Ctor, Dtor, Init, Name};
use sqlite_items::Items;

/// Whether an initialiser is the base's.
fn is_named(base: Option<Name>, name: NameId) -> bool
    ensures { result ≡ spec.is_named base name }
{
    match base {
        None => false,
        Some(base) => base.item.0 == name.0,
    }
}

fn type_or_null(value_type: Option<ValueType>) -> ValueType
    ensures { result ≡ spec.type_or_null value_type }
{
    match value_type {
        None => ValueType::Null,
        Some(value_type) => value_type,
    }
}

/// The number of a function.
pub(crate) fn number_by(signature: Option<&Signature>) -> Option<FnId>
    ensures { option_map number_core result ≡ spec.number_by (option_copied signature.entry) }
{
    match signature {
        None => None,
        Some(signature) => Some(signature.id),
    }
}

/// The number of the constructor of a class.
pub(crate) fn ctor_number(info: Option<&ClassInfo>) -> Option<FnId>
    ensures { option_map number_core result ≡ spec.number_by (spec.ctor_by (option_copied info.entry)) }
{
    match info {
        None => None,
        Some(info) => number_by(info.ctor.as_ref()),
    }
}

/// The number of the destructor of a class.
pub(crate) fn dtor_number(info: Option<&ClassInfo>) -> Option<FnId>
    ensures { option_map number_core result ≡ spec.number_by (spec.dtor_by (option_copied info.entry)) }
{
    match info {
        None => None,
        Some(info) => number_by(info.dtor.as_ref()),
    }
}

fn wrong(at: Place) -> Stmt
    ensures { stmt_core result ≡ core_stmt.wrong at }
{
    Stmt::Wrong(at)
}

impl<'a> Elaborator<'a> {
    /// One for a function with this result.
    fn with_result(&self, value_type: Option<ValueType>) -> Elaborator<'a>
        ensures { result ≡ record self.now { result = value_type } }
    {
        Elaborator {
            alloc: self.alloc,
            names: self.names,
            declared: self.declared,
            class: self.class,
            result: value_type,
        }
    }

    fn param(&self, param: &cxx_tree::Param) -> Param
        ensures { param_core result ≡ spec.core_param self.now.declared param.now }
    {
        Param {
            name: param.name.item,
            value_type: type_or_null(self.type_named(param.type_name.item)),
        }
    }

    fn params(&self, params: &[cxx_tree::Param]) -> Result<Items<Param>, Memory>
        ensures { IfOk result (λ ps. map param_core ps ≡ map (spec.core_param self.now.declared) params.now) }
    {
        let mut made = Items::new(self.alloc);
        for param in params {
            made.push(self.param(param))?;
        }
        Ok(made)
    }

    /// The parameters of a function, as they are in scope.
    fn params_scope(&self, params: &[cxx_tree::Param]) -> Result<Table<Thing>, Memory>
        ensures { IfOk result (λ scope. scope ≡ spec.params_scope self.now.declared params.now) }
    {
        let mut scope = Table::new(self.alloc);
        for param in params {
            let thing = self.declared.thing_of(param.type_name.item);
            scope.declare(param.name.item, thing)?;
        }
        Ok(scope)
    }

    /// The class's information, if there is a class.
    fn info_by(&self, class: Option<ClassId>) -> Option<&'a ClassInfo>
        ensures { option_copied result ≡ spec.info_by self.now.declared class }
    {
        match class {
            None => None,
            Some(class) => self.declared.class(class),
        }
    }

    /// The base of a class.
    pub(crate) fn base_class(&self, class: Option<ClassId>) -> Option<ClassId>
        ensures { result ≡ spec.base_class self.now.declared class }
    {
        match self.info_by(class) {
            None => None,
            Some(info) => info.base,
        }
    }

    /// A function, with its number.
    pub(crate) fn function(
        &self,
        number: FnId,
        function: &cxx_tree::Function,
    ) -> Result<Function, Memory>
        ensures { IfOk result (λ f. function_core f ≡
            record (spec.core_function self.now (function_tree function.now)) { number = number.0 }) }
    {
        let result = self.type_named(function.result.item);
        let params = self.params(function.params.as_slice())?;
        let mut scope = self.params_scope(function.params.as_slice())?;
        let body = self.with_result(result).block(&mut scope, &function.body)?;
        Ok(Function {
            number,
            name: function.name,
            class: self.class,
            kind: FunctionKind::Plain,
            params,
            result,
            base: None,
            base_arguments: Items::new(self.alloc),
            body,
        })
    }

    /// The arguments of the first initialiser that is the base's.
    fn base_arguments(
        &self,
        scope: &Table<Thing>,
        base: Option<Name>,
        inits: &[Init],
    ) -> Result<Items<Expr>, Memory>
        ensures { IfOk result (λ es. exprs_core es ≡
            spec.base_arguments self.now scope.now base (map init_tree inits.now)) }
    {
        for init in inits {
            if is_named(base, init.name.item) {
                return self.exprs(scope, init.arguments.as_slice());
            }
        }
        Ok(Items::new(self.alloc))
    }

    /// A body behind a wrong statement for each initialiser that is no base's.
    fn others_wrong(
        &self,
        base: Option<Name>,
        inits: &[Init],
        body: Items<Stmt>,
    ) -> Result<Items<Stmt>, Memory>
        ensures { IfOk result (λ ss. stmts_core ss ≡
            spec.others_wrong base (map init_tree inits.now) (stmts_core body)) }
    {
        let mut stmts = Items::new(self.alloc);
        for init in inits {
            if !is_named(base, init.name.item) {
                stmts.push(wrong(init.name.at))?;
            }
        }
        stmts.append(body)?;
        Ok(stmts)
    }

    /// A constructor of the class that has this base, with its number.
    pub(crate) fn ctor(
        &self,
        number: FnId,
        base: Option<Name>,
        ctor: &Ctor,
    ) -> Result<Function, Memory>
        ensures { IfOk result (λ f. function_core f ≡
            record (spec.core_ctor self.now base (ctor_tree ctor.now)) { number = number.0 }) }
    {
        let inits = ctor.inits.as_slice();
        let params = self.params(ctor.params.as_slice())?;
        let mut scope = self.params_scope(ctor.params.as_slice())?;
        let base_arguments = self.base_arguments(&scope, base, inits)?;
        let body = self.block(&mut scope, &ctor.body)?;
        let body = self.others_wrong(base, inits, body)?;
        Ok(Function {
            number,
            name: ctor.name,
            class: self.class,
            kind: FunctionKind::Constructor,
            params,
            result: None,
            base: ctor_number(self.info_by(self.base_class(self.class))),
            base_arguments,
            body,
        })
    }

    /// A destructor, with its number.
    pub(crate) fn dtor(&self, number: FnId, dtor: &Dtor) -> Result<Function, Memory>
        ensures { IfOk result (λ f. function_core f ≡
            record (spec.core_dtor self.now (dtor_tree dtor.now)) { number = number.0 }) }
    {
        let mut scope = Table::new(self.alloc);
        let body = self.block(&mut scope, &dtor.body)?;
        Ok(Function {
            number,
            name: dtor.name,
            class: self.class,
            kind: FunctionKind::Destructor,
            params: Items::new(self.alloc),
            result: None,
            base: dtor_number(self.info_by(self.base_class(self.class))),
            base_arguments: Items::new(self.alloc),
            body,
        })
    }
}
