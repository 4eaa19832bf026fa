//! Bits that flip.

ghost use Rattle.std.specs.Prelude.{◌≡◌, ◌<◌, ◌≤◌, map, option_map, slice_get, IfOk, OnOk, OnErr};
ghost use Rattle.std.specs.Option.{option_copied};
ghost use Rattle.cxx_arith.specs.Kinds as kinds;
ghost use Rattle.cxx_core.specs.ProgramView.{class_core};
ghost use Rattle.step_machine.specs.Flips as spec;
ghost use Rattle.step_machine.specs.Setting.{chain};

use crate::engine::Engine;
use agxx_base::{ClassId, Memory, NumKind, ObjectId};
use cxx_core::Class;
use step_machine::State;
use step_setting::Setting;
use step_world::{Change, Heap};

/// How many bits a number of a kind has.
fn width(kind: NumKind) -> u32
    ensures value { result ≡ kinds.width kind }
    ensures most { result ≤ 64 }
{
    match kind {
        NumKind::Bool => 1,
        NumKind::I8 | NumKind::U8 => 8,
        NumKind::I16 | NumKind::U16 => 16,
        NumKind::I32 | NumKind::U32 => 32,
        NumKind::I64 | NumKind::U64 => 64,
    }
}

fn class_at(classes: &[Class], class: ClassId) -> Option<&Class>
    ensures { option_map class_core (option_copied result) ≡
        slice_get (map class_core classes.now) class.0 }
{
    classes.get(class.0 as usize)
}

/// How many bits one of the words has that a class itself declares.
fn own_width(class: &Class, word: usize) -> u32
    ensures value { result ≡ spec.width_by (slice_get (class_core class.now).words word) }
    ensures most { result ≤ 64 }
{
    match class.words.as_slice().get(word) {
        None => 0,
        Some(word) => width(word.kind),
    }
}

/// How many bits a word has of a class, if there is one, and of those above it, so many at most, which declare so
/// many words.
fn width_upwards(
    classes: &[Class],
    steps: usize,
    class: Option<ClassId>,
    words: usize,
    word: usize,
) -> u32
    requires { words ≡ spec.word_count (chain (map class_core classes.now) steps class) }
    ensures value { result ≡ spec.width_by
        (slice_get (spec.words_in (chain (map class_core classes.now) steps class)) word) }
    ensures most { result ≤ 64 }
{
    let mut next = class;
    let mut above = words;
    let mut left = steps;
    while left > 0 {
        left -= 1;
        let Some(number) = next else {
            return 0;
        };
        let Some(class) = class_at(classes, number) else {
            return 0;
        };
        above -= class.words.len();
        if word >= above {
            return own_width(class, word - above);
        }
        next = class.base;
    }
    0
}

/// How many bits a word of an object of a class has; none where there is no such word.
fn width_of(setting: &Setting, class: ClassId, word: u32) -> u32
    ensures value { result ≡ spec.width_of setting.now class word }
    ensures most { result ≤ 64 }
{
    let classes = setting.program().classes.as_slice();
    let words = setting.word_count(class);
    width_upwards(
        classes,
        classes.len(),
        Some(class),
        words as usize,
        word as usize,
    )
}

/// These bits with one of them inverted.
fn inverted(bits: u64, bit: u32) -> u64
    requires { bit < 64 }
    ensures { result ≡ spec.inverted bits bit }
{
    bits ^ (1 << bit)
}

impl<'p, H: Heap> Engine<'p, H> {
    /// Gives a word other bits. After `Memory` the run is lost.
    fn store(&mut self, object: ObjectId, word: u32, bits: u64) -> Result<(), Memory>
        ensures ok { OnOk result (self.new ≡ spec.with_bits object.0 word bits self.old) }
        ensures err { OnErr result (self.new.state ≡ State.Lost) }
    {
        match self.world.change(0, Change::Store(object, word, bits)) {
            Ok(()) => Ok(()),
            Err(Memory) => {
                self.state = State::Lost;
                Err(Memory)
            }
        }
    }

    /// Whether a flip inverts this bit: where the object is live, has such a word and the bit is one of it.
    #[tactic(auto, unfolding(step_machine::specs::Flips::flipped))]
    pub fn inverts(&self, object: ObjectId, word: u32, bit: u32) -> bool
        ensures { result ≡ (spec.flipped object.0 word bit self.now).1 }
    {
        let Some(_) = self.world.word(object, word) else {
            return false;
        };
        let Some(class) = self.world.class(object) else {
            return false;
        };
        bit < width_of(self.setting, class, word)
    }

    /// Inverts a bit where the object is live, has such a word and the bit is one of it, and tells whether it did.
    /// After `Memory` the run is lost.
    #[tactic(auto, unfolding(step_machine::specs::Flips::flipped))]
    pub fn flip(&mut self, object: ObjectId, word: u32, bit: u32) -> Result<bool, Memory>
        ensures ok { IfOk result (λ changes.
            (self.new, changes) ≡ spec.flipped object.0 word bit self.old) }
        ensures err { OnErr result (self.new.state ≡ State.Lost) }
    {
        let Some(bits) = self.world.word(object, word) else {
            return Ok(false);
        };
        let Some(class) = self.world.class(object) else {
            return Ok(false);
        };
        if bit >= width_of(self.setting, class, word) {
            return Ok(false);
        }
        match self.store(object, word, inverted(bits, bit)) {
            Ok(()) => Ok(true),
            Err(Memory) => Err(Memory),
        }
    }
}
