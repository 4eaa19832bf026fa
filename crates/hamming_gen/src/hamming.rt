//! The code of check words and a parity word.

ghost use Rattle.hamming_gen.specs.Hamming as spec;

use crate::generated::{part_members, part_renew, part_repair};
use crate::names::add_part_texts;
use crate::positions::check_words;
use agxx_base::{ListOf, Memory, Names, Text};
use codec::{Codec, Part};
use cxx_tree::{Member, Stmt};
use sqlite_items::Items;
use std::alloc::Global;

/// Check words and a parity word: at each bit place one inverted bit is repaired, and where two are, the program stops.
pub struct Hamming;

impl Codec for Hamming {
    ghost code = { λ c. spec.hamming };

    fn extra_words(&self, members: u32) -> u32 {
        check_words(members as usize) as u32 + 1
    }

    fn add_texts(
        &self,
        alloc: Global,
        names: &Names,
        part: &Part,
        texts: &mut ListOf<Text>,
    ) -> Result<(), Memory> {
        add_part_texts(alloc, names, part, texts)
    }

    fn emit_members(
        &self,
        alloc: Global,
        names: &Names,
        part: &Part,
    ) -> Result<Items<Member>, Memory> {
        part_members(alloc, names, part)
    }

    fn emit_repair(
        &self,
        alloc: Global,
        names: &Names,
        part: &Part,
    ) -> Result<Items<Stmt>, Memory> {
        part_repair(alloc, names, part)
    }

    fn emit_renew(&self, alloc: Global, names: &Names, part: &Part) -> Result<Items<Stmt>, Memory> {
        part_renew(alloc, names, part)
    }
}
