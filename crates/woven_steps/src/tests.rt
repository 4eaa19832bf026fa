ghost use Rattle.std.specs.Prelude.{◌≡◌, []};

use crate::ListWords;
use agxx_base::{ClassId, Memory, NameId, ObjectId};
use cxx_arith::flag;
use std::alloc::Global;
use std::process::Abort;
use std::test::Fail;
use step_machine::Datum;
use step_world::{Change, Heap, Lock, Objects, World};

const FIRST: ObjectId = ObjectId(0);

const SECOND: ObjectId = ObjectId(1);

const NAME: NameId = NameId(2);

const THIRD: ObjectId = ObjectId(2);

const INSIDE: Lock = Lock::Inside(SECOND, 4);

const SHARED: Lock = Lock::Shared(NameId(6));

// Two objects are made and written to, and mutexes are taken.
fn begin<H: Heap>(world: &mut World<H>) -> Result<(), Memory> {
    world.create(ClassId(3), 2)?;
    if !world.has_variable(NAME) {
        world.declare(NAME, Datum::Null)?;
    }
    for change in [
        Change::Create(ClassId(5), 1),
        Change::Store(FIRST, 1, 7),
        Change::Store(FIRST, 2, 8),
        Change::Store(SECOND, 0, 9),
        Change::Take(INSIDE),
        Change::Take(SHARED),
        Change::Show(b"n = ".as_slice()),
        Change::Print(flag(true)),
    ] {
        world.change(2, change)?;
    }
    Ok(())
}

// One of them is destroyed, and another is made.
fn go_on<H: Heap>(world: &mut World<H>) -> Result<(), Memory> {
    for change in [
        Change::Kill(FIRST),
        Change::Store(FIRST, 1, 6),
        Change::Free(INSIDE),
        Change::Assign(NAME, Datum::Pointer(SECOND)),
        Change::Create(ClassId(3), 2),
    ] {
        world.change(1, change)?;
    }
    Ok(())
}

fn words<H: Heap>(world: &World<H>) -> [Option<u64>; 5] {
    [
        world.word(FIRST, 0),
        world.word(FIRST, 1),
        world.word(FIRST, 2),
        world.word(SECOND, 0),
        world.word(THIRD, 1),
    ]
}

fn holders<H: Heap>(world: &World<H>) -> [Option<u32>; 3] {
    [
        world.holder(INSIDE),
        world.holder(Lock::Inside(FIRST, 4)),
        world.holder(SHARED),
    ]
}

fn walk<H: Heap>(rt: &impl Abort, alloc: Global, heap: H) -> Result<(), Memory>
    requires { H.objects heap ≡ [] }
{
    let mut world = World::new(alloc, heap);
    begin(&mut world)?;
    let expected = [Some(0), Some(7), None, Some(9), None];
    assert_eq!(rt; words(&world), expected);
    assert_eq!(rt; holders(&world), [Some(2), None, Some(2)]);
    assert_eq!(rt; world.output(), b"n = 1".as_slice());

    go_on(&mut world)?;
    let expected = [None, None, None, Some(9), Some(0)];
    assert_eq!(rt; words(&world), expected);
    assert_eq!(rt; holders(&world), [None, None, Some(2)]);
    assert_eq!(rt; world.class(SECOND), Some(ClassId(5)));
    assert_eq!(rt; world.heap().made(), 3);
    assert_eq!(rt; world.variable(NAME), Datum::Pointer(SECOND));
    Ok(())
}

#[test]
fn objects_are_made_and_killed(rt: HostRuntime) -> Result<(), Fail> {
    walk(&rt, rt.alloc(), Objects::<ListWords>::new(rt.alloc()))?;
    Ok(())
}
