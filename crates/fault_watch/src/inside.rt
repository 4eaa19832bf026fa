//! Who is inside a part, and who runs.

ghost use Rattle.std.specs.Prelude.{◌≡◌, length, Some, option_map};
ghost use Rattle.std.specs.List.{list_any};
ghost use Rattle.step_machine.specs.Setting.{class_of_function, is_of};
ghost use Rattle.step_machine.specs.Total.{reading};
ghost use Rattle.step_machine.specs.Turn.{thread_at};
ghost use Rattle.step_frame.specs.Works.{function_of};
ghost use Rattle.fault_model.specs.Inside.{is_frame_on, is_inside};
ghost use Rattle.fault_watch.specs.Tops.{top_frame, top_of};

use agxx_base::{ClassId, FnId, ObjectId};
use step_engine::Engine;
use step_frame::{Frame, Thread};
use step_setting::Setting;
use step_world::Heap;

/// Whether a function, if there is one, is of a class or of one derived from it.
fn is_function_of(setting: &Setting<'_>, function: Option<FnId>, class: ClassId) -> bool
    ensures { result ≡
        is_of setting.now (class_of_function setting.now (option_map function_of function))
        (Some class) }
{
    match setting.class_of_function(function) {
        None => false,
        Some(own) => setting.is_of(own, Some(class)),
    }
}

/// Whether a frame is on an object in a function of a class or of one derived from it.
fn is_frame_on(setting: &Setting<'_>, frame: &Frame<'_>, object: ObjectId, class: ClassId) -> bool
    ensures { result ≡ is_frame_on setting.now object.0 class frame.now }
{
    match frame.this {
        None => false,
        Some(this) => this.0 == object.0 && is_function_of(setting, frame.function, class),
    }
}

/// Whether one of the frames of a thread is.
fn is_thread_on(
    setting: &Setting<'_>,
    thread: &Thread<'_>,
    object: ObjectId,
    class: ClassId,
) -> bool
    ensures { result ≡ list_any (is_frame_on setting.now object.0 class) thread.now }
{
    let frames = thread.frames();
    for frame in frames {
        if is_frame_on(setting, frame, object, class) {
            return true;
        }
    }
    false
}

/// Whether a frame of some thread is.
fn are_on(setting: &Setting<'_>, threads: &[Thread<'_>], object: ObjectId, class: ClassId) -> bool
    ensures { result ≡ list_any (list_any (is_frame_on setting.now object.0 class)) threads.now }
{
    for thread in threads {
        if is_thread_on(setting, thread, object, class) {
            return true;
        }
    }
    false
}

/// Whether somebody is inside the part of this class of an object. This takes the time of all frames.
pub fn are_inside<H: Heap>(engine: &Engine<'_, H>, object: ObjectId, class: ClassId) -> bool
    ensures { result ≡ is_inside (reading engine.now) object.0 class }
{
    are_on(engine.setting(), engine.threads(), object, class)
}

/// What is told of the frame that runs in a thread.
#[derive(Clone, Copy, Debug, PartialEq, Eq)]
pub struct Top {
    /// Its `this`.
    pub object: Option<ObjectId>,
    /// The class of its function.
    pub class: Option<ClassId>,
    /// How many frames the thread has.
    pub depth: usize,
}

fn top_frame(setting: &Setting<'_>, frame: &Frame<'_>, depth: usize) -> Top
    ensures { result ≡ top_frame setting.now frame.now depth }
{
    Top {
        object: frame.this,
        class: setting.class_of_function(frame.function),
        depth,
    }
}

fn top_of_thread(setting: &Setting<'_>, thread: &Thread<'_>) -> Option<Top>
    ensures { result ≡ top_of setting.now thread.now }
{
    let frames = thread.frames();
    let depth = frames.len();
    if depth == 0 {
        return None;
    }
    Some(top_frame(setting, &frames[depth - 1], depth))
}

/// The frame that runs in a thread, if there is one.
pub fn top_of<H: Heap>(engine: &Engine<'_, H>, thread: u32) -> Option<Top>
    ensures { result ≡ top_of engine.now.setting (thread_at engine.now.threads thread) }
{
    match engine.threads().get(thread as usize) {
        None => None,
        Some(thread) => top_of_thread(engine.setting(), thread),
    }
}

/// How many frames a thread has.
pub fn depth_of<H: Heap>(engine: &Engine<'_, H>, thread: u32) -> usize
    ensures { result ≡ length (thread_at engine.now.threads thread) }
{
    match top_of(engine, thread) {
        None => 0,
        Some(top) => top.depth,
    }
}
