//! Single words, and what stands between them.

ghost use Rattle.std.specs.Prelude.{◌∷◌, [], ◌++◌, decimal};
ghost use Rattle.std.specs.List.{flat_map};
ghost use Rattle.cxx_print.specs.Document.{one, blank, margin, newline, indented, word, special};
ghost use Rattle.cxx_print.specs.Expressions as form;
ghost use Rattle.cxx_print.specs.Printing.{Appends, Prints};
ghost use Rattle.cxx_print.specs.Texts as texts;
ghost use Rattle.cxx_tree.specs.Words as spelled;

use crate::printer::Printer;
use crate::texts::{header_text, keyword_text, sign_text, special_text, suffix};
use agxx_base::{Header, Keyword, NameId, Sign, Sink, SpecialName};
use cxx_tree::{Number, Quoted};
use itoa::Buffer;

impl<'n> Printer<'n> {
    pub(crate) fn keyword<O: Sink>(&mut self, sink: &mut O, keyword: Keyword)
        ensures { Prints O.taken O.faults (self.old, sink.old) (self.new, sink.new) (form.keyword keyword) }
    {
        self.put(sink, keyword_text(keyword));
    }

    pub(crate) fn sign<O: Sink>(&mut self, sink: &mut O, sign: Sign)
        ensures { Prints O.taken O.faults (self.old, sink.old) (self.new, sink.new) (form.sign sign) }
    {
        self.put(sink, sign_text(sign));
    }

    pub(crate) fn special_name<O: Sink>(&mut self, sink: &mut O, name: SpecialName)
        ensures { Prints O.taken O.faults (self.old, sink.old) (self.new, sink.new) (form.special_name name) }
    {
        self.put(sink, special_text(name));
    }

    pub(crate) fn include<O: Sink>(&mut self, sink: &mut O, header: Header)
        ensures { Prints O.taken O.faults (self.old, sink.old) (self.new, sink.new)
            (one (word (spelled.include header))) }
    {
        self.put(sink, header_text(header));
    }

    pub(crate) fn pragma<O: Sink>(&mut self, sink: &mut O)
        ensures { Prints O.taken O.faults (self.old, sink.old) (self.new, sink.new) (one (word spelled.pragma)) }
    {
        self.put(sink, b"#pragma once");
    }

    /// A name by its number; nothing, where no name has it.
    pub(crate) fn id<O: Sink>(&mut self, sink: &mut O, id: NameId)
        ensures { Prints O.taken O.faults (self.old, sink.old) (self.new, sink.new)
            (one (word (spelled.name id.0))) }
    {
        let names = self.names();
        if (id.0 as usize) < names.len() {
            self.put(sink, names.text_of(id));
        }
    }

    pub(crate) fn number<O: Sink>(&mut self, sink: &mut O, number: Number)
        ensures { Prints O.taken O.faults (self.old, sink.old) (self.new, sink.new) (form.number number) }
    {
        let mut digits = Buffer::new();
        self.put(sink, digits.format(number.bits).as_bytes());
        self.put(sink, suffix(number.kind));
    }

    fn character<O: Sink>(&mut self, sink: &mut O, byte: u8)
        ensures { Appends O.taken O.faults (self.old, sink.old) (self.new, sink.new) (texts.escaped byte) }
    {
        match byte {
            b'\n' => self.put(sink, b"\\n"),
            b'\t' => self.put(sink, b"\\t"),
            b'\\' => self.put(sink, b"\\\\"),
            b'"' => self.put(sink, b"\\\""),
            _ => self.put(sink, &[byte]),
        }
    }

    fn characters<O: Sink>(&mut self, sink: &mut O, bytes: &[u8])
        ensures { Appends O.taken O.faults (self.old, sink.old) (self.new, sink.new)
            (flat_map texts.escaped bytes.now) }
    {
        for byte in bytes {
            self.character(sink, *byte);
        }
    }

    pub(crate) fn string<O: Sink>(&mut self, sink: &mut O, string: &Quoted)
        ensures { Prints O.taken O.faults (self.old, sink.old) (self.new, sink.new) (form.string string.now) }
    {
        self.put(sink, b"\"");
        self.characters(sink, string.bytes.bytes());
        self.put(sink, b"\"");
    }

    pub(crate) fn gap<O: Sink>(&mut self, sink: &mut O)
        ensures { Prints O.taken O.faults (self.old, sink.old) (self.new, sink.new) form.gap }
    {
        self.put(sink, b" ");
    }

    fn margin<O: Sink>(&mut self, sink: &mut O)
        ensures { Prints O.taken O.faults (self.old, sink.old) (self.new, sink.new) (one margin) }
    {
        self.put(sink, b"    ");
    }

    pub(crate) fn newline<O: Sink>(&mut self, sink: &mut O)
        ensures { Prints O.taken O.faults (self.old, sink.old) (self.new, sink.new) (one newline) }
    {
        self.put(sink, b"\n");
    }

    pub(crate) fn indented<O: Sink>(&mut self, sink: &mut O, level: u32)
        ensures { Prints O.taken O.faults (self.old, sink.old) (self.new, sink.new) (indented level) }
    {
        let mut left = level;
        while left > 0 {
            self.margin(sink);
            left -= 1;
        }
    }

    pub(crate) fn spaced<O: Sink>(&mut self, sink: &mut O, sign: Sign)
        ensures { Prints O.taken O.faults (self.old, sink.old) (self.new, sink.new) (form.spaced sign) }
    {
        self.gap(sink);
        self.sign(sink, sign);
        self.gap(sink);
    }

    pub(crate) fn comma<O: Sink>(&mut self, sink: &mut O)
        ensures { Prints O.taken O.faults (self.old, sink.old) (self.new, sink.new) form.comma }
    {
        self.sign(sink, Sign::Comma);
        self.gap(sink);
    }
}
