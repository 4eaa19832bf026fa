//! Statements.

ghost use Rattle.std.specs.Prelude.{◌≡◌, OnOk, IfOk, option_map, map, true};
ghost use Rattle.cxx_tree.specs.ExprTree.{expr_tree, exprs_tree};
ghost use Rattle.cxx_tree.specs.StmtTree.{initial_tree, local_tree, assign_tree, simple_tree};
ghost use Rattle.cxx_tree.specs.StmtTree.{printed_tree, thread_tree, start_tree, stmt_tree};
ghost use Rattle.cxx_tree.specs.StmtTree.{stmts_tree, block_tree, if_tree, else_tree};
ghost use Rattle.cxx_tree.specs.StmtTree.{while_tree, for_tree};
ghost use Rattle.cxx_types.specs.Calls.{lent_signature};
ghost use Rattle.cxx_types.specs.Statements as spec;

use crate::access::is_accessible;
use crate::calls::{counts, is_void, result_type};
use crate::checker::Checker;
use crate::context::{Context, Owner};
use crate::conversion::{may_be_bumped, may_be_number, may_be_printed, may_convert};
use crate::entry::Meaning;
use crate::expressions::count;
use crate::locals::following;
use crate::selections::value_of;
use agxx_base::{ClassId, Memory, Place, Rule};
use cxx_names::{Signature, Thing, ValueType};
use cxx_tree::{
    Assign, BinOp, Block, Bump, Else, Expr, For, If, Initial, Local, Placed, Printed, Ref, Simple,
    Start, Stmt, Thread, TypeName, While,
};

/// The most bytes between the quotes of a string.
const MOST_BYTES: usize = 4096;

impl<'a> Checker<'a> {
    fn initial(
        &mut self,
        context: Context,
        type_name: TypeName,
        initial: Option<&Initial>,
    ) -> Result<(), Memory>
        ensures { OnOk result
            (self.new ≡ spec.initial context type_name
            (option_map (λ i. initial_tree i.now) initial.entry) self.old) }
    {
        let Some(initial) = initial else {
            return Ok(());
        };
        let value = self.expr(context, &initial.value)?;
        let to = value_of(self.declared.thing_of(type_name));
        let is_right = may_convert(self.declared, value, to);
        self.require(Rule::N3, initial.sign, is_right)
    }

    #[tactic(auto, unfolding(crate::specs::Statements::local))]
    fn local(&mut self, context: Context, local: &Local) -> Result<(), Memory>
        ensures { OnOk result (self.new ≡ spec.local context (local_tree local.now) self.old) }
    {
        let type_name = local.type_name.item;
        self.variable_type(local.type_name)?;
        self.initial(context, type_name, local.initial.as_ref())?;
        let thing = self.declared.thing_of(type_name);
        self.local_declared(context, local.name, thing)
    }

    fn assigned(
        &mut self,
        sign: Placed<Option<BinOp>>,
        to: Option<ValueType>,
        value: Option<ValueType>,
    ) -> Result<(), Memory>
        ensures { OnOk result (self.new ≡ spec.assigned sign to (self.old, value)) }
    {
        let is_right = match sign.item {
            None => may_convert(self.declared, value, to),
            Some(_) => may_be_number(to) && may_be_number(value),
        };
        self.require(Rule::N3, sign.at, is_right)
    }

    fn assign(&mut self, context: Context, assign: &Assign) -> Result<(), Memory>
        ensures { OnOk result (self.new ≡ spec.assign context (assign_tree assign.now) self.old) }
    {
        let to = self.left(context, assign.left)?;
        let value = self.expr(context, &assign.value)?;
        self.assigned(assign.sign, to, value)
    }

    fn bumped(&mut self, context: Context, bump: Bump) -> Result<(), Memory>
        ensures { OnOk result (self.new ≡ spec.bumped context bump self.old) }
    {
        let value_type = self.left(context, bump.left)?;
        self.require(Rule::N3, bump.sign, may_be_bumped(value_type))
    }

    #[tactic(auto, unfolding(crate::specs::Statements::simple))]
    fn simple_statement(&mut self, context: Context, simple: &Simple) -> Result<(), Memory>
        ensures { OnOk result (self.new ≡ spec.simple context (simple_tree simple.now) self.old) }
    {
        match simple {
            Simple::Assign(assign) => self.assign(context, assign),
            Simple::Bump(bump) => self.bumped(context, *bump),
            Simple::CallStmt(call) => {
                self.call(context, false, call)?;
                Ok(())
            }
            Simple::Proceed(_) => Ok(()),
        }
    }

    fn counted_return(&mut self, at: Place) -> Result<(), Memory>
        ensures { OnOk result (self.new ≡ spec.counted_return at self.old) }
    {
        let has_room = self.returns != self.most.returns;
        self.require(Rule::N10, at, has_room)?;
        self.returns = following(self.returns)?;
        Ok(())
    }

    fn returned_nothing(&mut self, owner: Owner, at: Place) -> Result<(), Memory>
        ensures { OnOk result (self.new ≡ spec.returned_nothing owner at self.old) }
    {
        match owner {
            Owner::Function(type_name) => self.require(Rule::N3, at, is_void(type_name)),
            Owner::Lifecycle => self.require(Rule::N8, at, false),
            Owner::Global => Ok(()),
        }
    }

    fn may_return(&self, type_name: TypeName, value: Option<ValueType>) -> bool
        ensures { result ≡ spec.may_return type_name (self.now, value) }
    {
        !is_void(type_name)
            && may_convert(self.declared, value, result_type(self.declared, type_name))
    }

    fn returned_value(
        &mut self,
        owner: Owner,
        at: Place,
        value: Option<ValueType>,
    ) -> Result<(), Memory>
        ensures { OnOk result (self.new ≡ spec.returned_value owner at (self.old, value)) }
    {
        match owner {
            Owner::Function(type_name) => {
                let is_right = self.may_return(type_name, value);
                self.require(Rule::N3, at, is_right)
            }
            Owner::Lifecycle => self.require(Rule::N8, at, false),
            Owner::Global => Ok(()),
        }
    }

    #[tactic(auto, unfolding(crate::specs::Statements::returned))]
    fn returned(&mut self, context: Context, at: Place, value: Option<&Expr>) -> Result<(), Memory>
        ensures { OnOk result
            (self.new ≡ spec.returned context at
            (option_map (λ e. expr_tree e.now) value.entry) self.old) }
    {
        match value {
            None => self.returned_nothing(context.owner, at)?,
            Some(value) => {
                let value_type = self.expr(context, value)?;
                self.returned_value(context.owner, at, value_type)?;
            }
        }
        self.counted_return(at)
    }

    pub(crate) fn dtor_is_accessible(&self, viewer: Option<ClassId>, class: ClassId) -> bool
        ensures { result ≡ spec.dtor_is_accessible viewer class self.now }
    {
        match self.declared.class(class) {
            None => true,
            Some(info) => match &info.dtor {
                None => true,
                Some(dtor) => is_accessible(self.declared, dtor.access, viewer, class, class),
            },
        }
    }

    fn deleted_type(
        &mut self,
        context: Context,
        at: Place,
        value_type: Option<ValueType>,
    ) -> Result<(), Memory>
        ensures { OnOk result (self.new ≡ spec.deleted_type context at value_type self.old) }
    {
        match value_type {
            None => Ok(()),
            Some(ValueType::Pointer(class)) => {
                let accessible = self.dtor_is_accessible(context.class, class);
                self.require(Rule::N6, at, accessible)
            }
            Some(_) => self.require(Rule::N3, at, false),
        }
    }

    #[tactic(auto, unfolding(crate::specs::Statements::deleted))]
    fn deleted(&mut self, context: Context, at: Place, pointer: &Expr) -> Result<(), Memory>
        ensures { OnOk result (self.new ≡ spec.deleted context at (expr_tree pointer.now) self.old) }
    {
        let value_type = self.expr(context, pointer)?;
        self.deleted_type(context, at, value_type)
    }

    #[tactic(auto, unfolding(crate::specs::Statements::printed))]
    fn printed(&mut self, context: Context, printed: &Printed) -> Result<(), Memory>
        ensures { OnOk result (self.new ≡ spec.printed context (printed_tree printed.now) self.old) }
    {
        match printed {
            Printed::Text(text) => {
                let fits = text.bytes.bytes().len() <= MOST_BYTES;
                self.require(Rule::N10, text.at, fits)
            }
            Printed::Endl(_) => Ok(()),
            Printed::Value(value) => {
                let value_type = self.expr(context, value)?;
                self.require(Rule::N3, value.node().at, may_be_printed(value_type))
            }
        }
    }

    fn all_printed(&mut self, context: Context, operands: &[Printed]) -> Result<(), Memory>
        ensures { OnOk result
            (self.new ≡ spec.all_printed context (map printed_tree operands.now) self.old) }
    {
        for operand in operands {
            self.printed(context, operand)?;
        }
        Ok(())
    }

    fn started(
        &mut self,
        context: Context,
        at: Place,
        function: Ref,
        arguments: &[Expr],
    ) -> Result<(), Memory>
        ensures { OnOk result
            (self.new ≡ spec.started context at function (exprs_tree arguments.now)
            (spec.function_started function self.old) self.old) }
    {
        let declared = self.declared;
        match declared.free_function(function.name.item) {
            None => {
                self.require(Rule::N1, function.name.at, false)?;
                self.node(None, Meaning::Other)?;
                self.arguments(context, &[], arguments)?;
                Ok(())
            }
            Some(signature) => {
                let counted = counts(count(arguments), signature.params.as_slice());
                let result = result_type(declared, signature.result);
                self.require(Rule::N8, at, !signature.is_main)?;
                self.require(Rule::N3, function.node.at, is_void(signature.result))?;
                self.require(Rule::N4, function.name.at, counted)?;
                self.node(result, Meaning::Function(signature.id))?;
                self.arguments(context, signature.params.as_slice(), arguments)?;
                Ok(())
            }
        }
    }

    #[tactic(auto, unfolding(crate::specs::Statements::thread))]
    fn thread(&mut self, context: Context, outermost: bool, thread: &Thread) -> Result<(), Memory>
        ensures { OnOk result
            (self.new ≡ spec.thread context outermost (thread_tree thread.now) self.old) }
    {
        self.require(Rule::N8, thread.at, outermost)?;
        self.started(
            context,
            thread.at,
            thread.function,
            thread.arguments.as_slice(),
        )?;
        self.local_declared(context, thread.name, Thing::Thread)
    }

    fn start(&mut self, context: Context, start: Option<&Start>) -> Result<(), Memory>
        ensures { OnOk result
            (self.new ≡ spec.start context (option_map (λ f. start_tree f.now) start.entry) self.old) }
    {
        match start {
            None => Ok(()),
            Some(Start::Local(local)) => self.local(context, local),
            Some(Start::Simple(simple)) => self.simple_statement(context, simple),
        }
    }

    fn condition(&mut self, context: Context, condition: Option<&Expr>) -> Result<(), Memory>
        ensures { OnOk result
            (self.new ≡ spec.condition context
            (option_map (λ e. expr_tree e.now) condition.entry) self.old) }
    {
        if let Some(condition) = condition {
            self.expr(context, condition)?;
        }
        Ok(())
    }

    fn step(&mut self, context: Context, step: Option<&Simple>) -> Result<(), Memory>
        ensures { OnOk result
            (self.new ≡ spec.step context (option_map (λ i. simple_tree i.now) step.entry) self.old) }
    {
        match step {
            None => Ok(()),
            Some(step) => self.simple_statement(context, step),
        }
    }

    /// A statement, in the outermost block of a function or not.
    #[cycle(stmt)]
    fn stmt(&mut self, context: Context, outermost: bool, stmt: &Stmt) -> Result<(), Memory>
        ensures { OnOk result (self.new ≡ spec.stmt context outermost (stmt_tree stmt.now) self.old) }
    {
        match stmt {
            Stmt::Block(block) => self.block(context, block),
            Stmt::Local(local) => self.local(context, local),
            Stmt::Simple(simple) => self.simple_statement(context, simple),
            Stmt::If(branch) => self.branch(context, branch),
            Stmt::While(repeat) => self.repeat_while(context, repeat),
            Stmt::For(repeat) => self.repeat_for(context, repeat),
            Stmt::Return(at, value) => self.returned(context, *at, value.as_ref()),
            Stmt::Delete(at, pointer) => self.deleted(context, *at, pointer),
            Stmt::Print(print) => self.all_printed(context, print.operands.as_slice()),
            Stmt::Thread(thread) => self.thread(context, outermost, thread),
            Stmt::Abort(_) => Ok(()),
        }
    }

    #[cycle(stmt)]
    pub(crate) fn stmts(
        &mut self,
        context: Context,
        outermost: bool,
        stmts: &[Stmt],
    ) -> Result<(), Memory>
        ensures { OnOk result
            (self.new ≡ spec.stmts context outermost (stmts_tree stmts.now) self.old) }
    {
        for stmt in stmts {
            self.stmt(context, outermost, stmt)?;
        }
        Ok(())
    }

    #[cycle(stmt)]
    fn block(&mut self, context: Context, block: &Block) -> Result<(), Memory>
        ensures { OnOk result (self.new ≡ spec.block context (block_tree block.now) self.old) }
    {
        let before = self.scope.len();
        self.stmts(context, false, block.stmts.as_slice())?;
        self.scope.truncate(before);
        Ok(())
    }

    #[cycle(stmt)]
    fn branch(&mut self, context: Context, branch: &If) -> Result<(), Memory>
        ensures { OnOk result (self.new ≡ spec.branch context (if_tree branch.now) self.old) }
    {
        self.expr(context, &branch.condition)?;
        self.block(context, &branch.body)?;
        match &branch.otherwise {
            None => Ok(()),
            Some(otherwise) => self.otherwise(context, otherwise),
        }
    }

    #[cycle(stmt)]
    fn otherwise(&mut self, context: Context, otherwise: &Else) -> Result<(), Memory>
        ensures { OnOk result
            (self.new ≡ spec.otherwise_of context (else_tree otherwise.now) self.old) }
    {
        match otherwise {
            Else::Branch(branch) => self.branch(context, branch.get()),
            Else::Body(block) => self.block(context, block),
        }
    }

    #[cycle(stmt)]
    fn repeat_while(&mut self, context: Context, repeat: &While) -> Result<(), Memory>
        ensures { OnOk result (self.new ≡ spec.stmt context true (while_tree repeat.now) self.old) }
    {
        self.expr(context, &repeat.condition)?;
        self.block(context, &repeat.body)
    }

    #[cycle(stmt)]
    fn repeat_for(&mut self, context: Context, repeat: &For) -> Result<(), Memory>
        ensures { OnOk result (self.new ≡ spec.stmt context true (for_tree repeat.now) self.old) }
    {
        let before = self.scope.len();
        self.start(context, repeat.start.as_ref())?;
        self.condition(context, repeat.condition.as_ref())?;
        self.step(context, repeat.step.as_ref())?;
        self.block(context, &repeat.body)?;
        self.scope.truncate(before);
        Ok(())
    }

    /// The statements of a body.
    pub(crate) fn body(&mut self, context: Context, body: &Block) -> Result<(), Memory>
        ensures { OnOk result (self.new ≡ spec.body context (block_tree body.now) self.old) }
    {
        self.stmts(context, true, body.stmts.as_slice())
    }
}
