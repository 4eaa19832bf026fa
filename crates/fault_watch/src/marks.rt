//! Which parts have been hit.

ghost use Rattle.std.specs.Prelude.{◌≡◌, true, Some, option_map, OnOk, OnErr};
ghost use Rattle.step_frame.specs.Works.{number_of};
ghost use Rattle.fault_lines.specs.Marks.{no_marks, with_mark, cleared};
ghost use Rattle.fault_watch.specs.MarkSets.{has, without_mark};

use crate::classes::{class_at, class_count};
use agxx_base::{ClassId, Memory, ObjectId};
use std::alloc::Global;
use std::collections::BTreeSet;
use std::marker::Model;
use step_setting::Setting;

/// A set of parts, each of an object and of the class that declares it.
#[derive(Drop)]
pub struct Marks {
    /// The numbers of the object and of the class.
    parts: BTreeSet<(u32, u32)>,
}

impl Model for Marks {
    ghost use Rattle.fault_watch.specs.MarkSets.{MarkSet};

    ghost Value = { MarkSet };

    ghost view = { λ marks. marks.parts.keys };
}

impl Marks {
    /// No parts, which takes no memory.
    #[tactic(auto, unfolding(crate::specs::MarkSets::has))]
    pub fn new(alloc: Global) -> Marks
        ensures { has result ≡ no_marks }
    {
        Marks {
            parts: BTreeSet::new(alloc),
        }
    }

    /// Whether it has a part.
    pub fn has(&self, object: ObjectId, class: ClassId) -> bool
        ensures { result ≡ has self.now object.0 class }
    {
        self.parts.contains(&(object.0, class.0))
    }

    /// Whether it has no parts.
    #[tactic(auto, unfolding(crate::specs::MarkSets::has))]
    pub fn is_empty(&self) -> bool
        ensures { result ≡ true → has self.now ≡ no_marks }
    {
        self.parts.is_empty()
    }

    /// Adds a part. Without memory the set stays as it was.
    pub fn add(&mut self, object: ObjectId, class: ClassId) -> Result<(), Memory>
        ensures ok { OnOk result (has self.new ≡ with_mark object.0 class (has self.old)) }
        ensures err { OnErr result (self.new ≡ self.old) }
    {
        self.parts.insert((object.0, class.0))?;
        Ok(())
    }

    fn remove(&mut self, object: ObjectId, class: ClassId)
        ensures { has self.new ≡ without_mark object.0 class (has self.old) }
    {
        self.parts.remove(&(object.0, class.0));
    }

    /// Removes the parts of an object of a class, those of the classes above it included.
    fn clear_line(&mut self, setting: &Setting<'_>, object: ObjectId, own: Option<ClassId>)
        ensures { has self.new ≡ cleared setting.now (Some object.0) own (has self.old) }
    {
        let mut next = own;
        let mut left = class_count(setting);
        while left > 0 {
            left -= 1;
            let Some(number) = next else {
                return;
            };
            let Some(class) = class_at(setting, number) else {
                return;
            };
            self.remove(object, number);
            next = class.base;
        }
    }

    /// Removes the parts of an object of a class, if there are both, those of the classes above it included. Where the
    /// set is empty, this takes a constant time, and else the time of these classes.
    pub fn clear(&mut self, setting: &Setting<'_>, object: Option<ObjectId>, own: Option<ClassId>)
        ensures { has self.new ≡
            cleared setting.now (option_map number_of object) own (has self.old) }
    {
        if self.is_empty() {
            return;
        }
        let Some(object) = object else {
            return;
        };
        self.clear_line(setting, object, own);
    }
}
