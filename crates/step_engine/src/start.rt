//! What a run finds at its start.

ghost use Rattle.std.specs.Prelude.{◌≡◌, ◌+◌, ◌≤◌, [], length, map, IfOk, OnOk};
ghost use Rattle.cxx_core.specs.ProgramView.{global_core};
ghost use Rattle.step_machine.specs.Start.{start_frame, start_items, start_world};
ghost use Rattle.step_machine.specs.Start.{makes_on, unmakes_on};
ghost use Rattle.step_world.specs.Worlds.{empty_world};
ghost use Rattle.step_engine.specs.Starts.{with_variable, with_global, with_globals, object_count};

use agxx_base::{Memory, NameId, OBJECT_LIMIT, ObjectId};
use cxx_core::Global as GlobalItem;
use std::alloc::Global;
use step_frame::{Agenda, Frame, Stack, Work};
use step_machine::Datum;
use step_setting::Setting;
use step_world::{Entries, Heap, World};

/// Puts the construction of the global objects, of which the first has this number, before what is left to do.
fn push_makes<'p>(
    globals: &'p [GlobalItem],
    object: ObjectId,
    agenda: &mut Agenda<'p>,
) -> Result<(), Memory>
    requires { object.0 + object_count (map global_core globals.now) ≤ OBJECT_LIMIT }
    ensures { OnOk result (agenda.new ≡
        makes_on object.0 (map global_core globals.now) agenda.old) }
{
    match globals {
        [] => Ok(()),
        [global, rest @ ..] => match global {
            GlobalItem::Object(at, _, class, arguments) => {
                push_makes(rest, ObjectId(object.0 + 1), agenda)?;
                agenda.push(Work::Make(*at, object, *class, arguments.as_slice()))
            }
            _ => push_makes(rest, object, agenda),
        },
    }
}

/// Puts the destruction of the global objects, of which the first has this number, in reverse order before what is
/// left to do.
fn push_unmakes<'p>(
    globals: &'p [GlobalItem],
    object: ObjectId,
    agenda: &mut Agenda<'p>,
) -> Result<(), Memory>
    requires { object.0 + object_count (map global_core globals.now) ≤ OBJECT_LIMIT }
    ensures { OnOk result (agenda.new ≡
        unmakes_on object.0 (map global_core globals.now) agenda.old) }
{
    match globals {
        [] => Ok(()),
        [global, rest @ ..] => match global {
            GlobalItem::Object(at, _, class, _) => {
                agenda.push(Work::Unmake(*at, object, *class))?;
                push_unmakes(rest, ObjectId(object.0 + 1), agenda)
            }
            _ => push_unmakes(rest, object, agenda),
        },
    }
}

fn items<'p>(alloc: Global, globals: &'p [GlobalItem]) -> Result<Agenda<'p>, Memory>
    requires { object_count (map global_core globals.now) ≤ OBJECT_LIMIT }
    ensures { IfOk result (λ items. items ≡ start_items (map global_core globals.now)) }
{
    let mut agenda = Agenda::new(alloc);
    agenda.push(Work::Finish)?;
    push_unmakes(globals, ObjectId(0), &mut agenda)?;
    agenda.push(Work::Run)?;
    push_makes(globals, ObjectId(0), &mut agenda)?;
    Ok(agenda)
}

/// The frame in which a run starts.
pub(crate) fn start_frame<'p>(alloc: Global, globals: &'p [GlobalItem]) -> Result<Frame<'p>, Memory>
    requires { object_count (map global_core globals.now) ≤ OBJECT_LIMIT }
    ensures { IfOk result (λ frame. frame ≡ start_frame (map global_core globals.now)) }
{
    Ok(Frame {
        function: None,
        is_generated: false,
        this: None,
        locals: Entries::new(alloc),
        threads: Entries::new(alloc),
        values: Stack::new(alloc),
        kept: None,
        agenda: items(alloc, globals)?,
    })
}

fn declare<H: Heap>(world: &mut World<H>, name: NameId, value: Datum) -> Result<(), Memory>
    ensures ok { OnOk result (world.new ≡ with_variable name.0 value world.old) }
    ensures objects { OnOk result (world.new.objects ≡ world.old.objects) }
{
    if world.has_variable(name) {
        Ok(())
    } else {
        world.declare(name, value)
    }
}

#[tactic(auto, using(crate::proofs::Starts::few_more))]
fn add<H: Heap>(setting: &Setting, global: &GlobalItem, world: &mut World<H>) -> Result<(), Memory>
    requires { length world.old.objects ≤ OBJECT_LIMIT }
    ensures ok { OnOk result (world.new ≡
        with_global setting.now (global_core global.now) world.old) }
    ensures few { OnOk result (length world.new.objects ≤ OBJECT_LIMIT) }
{
    match global {
        GlobalItem::Number(name, value) => declare(world, *name, Datum::Number(*value)),
        GlobalItem::Pointer(name, _) => declare(world, *name, Datum::Null),
        GlobalItem::Object(_, _, class, _) => world.create(*class, setting.word_count(*class)),
        GlobalItem::Mutex(_) => Ok(()),
        GlobalItem::Wrong(_) => Ok(()),
    }
}

fn add_all<H: Heap>(
    setting: &Setting,
    globals: &[GlobalItem],
    world: &mut World<H>,
) -> Result<(), Memory>
    requires { length world.old.objects ≤ OBJECT_LIMIT }
    ensures ok { OnOk result (world.new ≡
        with_globals setting.now (map global_core globals.now) world.old) }
    ensures few { OnOk result (length world.new.objects ≤ OBJECT_LIMIT) }
{
    for global in globals {
        add(setting, global, world)?;
    }
    Ok(())
}

/// What threads share at the start.
#[tactic(auto, using(crate::proofs::Starts::start_is, crate::proofs::Starts::few_at_start))]
pub(crate) fn start_world<H: Heap>(
    alloc: Global,
    setting: &Setting,
    heap: H,
) -> Result<World<H>, Memory>
    requires { H.objects heap ≡ [] }
    ensures ok { IfOk result (λ world. world ≡ start_world setting.now) }
    ensures few { OnOk result (object_count setting.now.program.globals ≤ OBJECT_LIMIT) }
{
    let mut world = World::new(alloc, heap);
    add_all(setting, setting.program().globals.as_slice(), &mut world)?;
    Ok(world)
}
