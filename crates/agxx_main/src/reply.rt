//! Answers before they are written.

ghost use Rattle.std.specs.Prelude.{◌≡◌};
ghost use Rattle.agxx_base.specs.Sink.{WritesWhole};
ghost use Rattle.agxx_main.specs.Replies.{answer_of};

use crate::answer::Answer;
use agxx_base::{Failed, Names, Sink, Status, write_whole};
use cxx_print::print;
use cxx_tree::Program;

/// A woven program, whose text is what is answered.
#[derive(Drop)]
pub struct Woven {
    pub names: Names,
    pub program: Program,
}

/// What the program tells, before it is written.
#[derive(Drop)]
pub enum Reply {
    Told(Answer),
    /// The text is written as it is made, and kept nowhere.
    Woven(Woven),
}

impl Reply {
    pub fn status(&self) -> Status
        ensures { result ≡ (answer_of self.now).status }
    {
        match self {
            Reply::Told(answer) => answer.status,
            Reply::Woven(_) => Status::Done,
        }
    }

    /// Writes what goes to standard output.
    pub fn write_out<O: Sink>(&self, out: &mut O) -> Result<(), Failed>
        ensures { WritesWhole (O.taken out.old) (O.taken out.new) (answer_of self.now).out
            (O.faults out.old) (O.faults out.new) result }
    {
        match self {
            Reply::Told(answer) => write_whole(out, answer.out.bytes()),
            Reply::Woven(woven) => print(&woven.names, &woven.program, out),
        }
    }

    /// What goes to standard error.
    pub fn diag(&self) -> &[u8]
        ensures { result.now ≡ (answer_of self.now).diag }
    {
        match self {
            Reply::Told(answer) => answer.diag.bytes(),
            Reply::Woven(_) => b"".as_slice(),
        }
    }
}
