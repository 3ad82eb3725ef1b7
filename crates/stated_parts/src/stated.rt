//! What an audit looks into: the program, the stated parts, and their tables.

ghost use Rattle.std.specs.Prelude.{◌≡◌, ◌≤◌, ◌<◌, ℕ, List, Some, IfOk, length, option_copied};
ghost use Rattle.std.specs.Prelude.{slice_get};
ghost use Rattle.rev_num.specs.Path.{Path};
ghost use Rattle.rev_num.specs.Limits.{most_fuel};
ghost use Rattle.rev_syntax.specs.View.{program as whole};
ghost use Rattle.name_tables.specs.Table.{find};
ghost use Rattle.revision_machine.specs.PathIndex.{IsIndexed, indexed_prop, place_by};
ghost use Rattle.revision_state.specs.Views.{given};
ghost use Rattle.audit_rules.specs.Parts as spec;
ghost use Rattle.audit_rules.specs.Traces.{InPostOrder, part_at, paths_of};
ghost use Rattle.stated_parts.specs.Tables.{joiner_from};

use crate::path_table::PathTable;
use crate::tables::{indices_of, joiners_of, numbers_of};
use name_tables::NameTable;
use rev_num::{Bytes, Path};
use revision_state::Setting;
use std::alloc::{AllocError, Global};
use trace_diagram::Part;
use trace_parts::places_of;
use typed_programs::Typed;

/// A program with its fuel, and the parts that are stated of its revisions.
#[derive(Drop)]
pub struct Stated<'a> {
    pub setting: Setting<'a>,
    pub fuel: u64,
    pub parts: &'a [Part],
    /// The places of the locations.
    pub places: Vec<Bytes>,
    /// The number of the location of each place.
    pub numbers: NameTable<u32>,
    /// The number of the part of each revision.
    pub indices: PathTable,
    /// The number of the first part that lists a revision as joined.
    pub joiners: PathTable,
    ghost small: { fuel ≤ most_fuel },
    ghost placed: { places.items ≡ spec.places (given setting) },
    ghost numbered: { (place : List ℕ) → find place numbers
        ≡ spec.number_of (spec.places (given setting)) place },
    ghost indexed: { IsIndexed indices.map (paths_of parts.now) } by { indexed_prop indices.map _ },
    ghost joined: { (q : Path) → place_by joiners.map q ≡ joiner_from 0 parts.now q },
}

impl<'a> Stated<'a> {
    /// The parts that are stated of the revisions of this program with these inputs, the most fuel
    /// that a fork gives, and this fuel.
    pub fn new(
        alloc: Global,
        typed: &'a Typed,
        input: &'a [i64],
        share: u64,
        fuel: u64,
        parts: &'a [Part],
    ) -> Result<Stated<'a>, AllocError>
        requires { fuel ≤ most_fuel }
        ensures setting { IfOk result (λ t. given t.setting
            ≡ record {
              program = whole typed.now.expanded.program;
              inputs = input.now;
              share = share;
            }) }
        ensures fuel { IfOk result (λ t. t.fuel ≡ fuel) }
        ensures parts { IfOk result (λ t. t.parts.now ≡ parts.now) }
    {
        let setting = Setting::new(alloc, typed, input, share)?;
        let places = places_of(alloc, setting.typed())?;
        let numbers = numbers_of(alloc, &places)?;
        let indices = indices_of(alloc, parts)?;
        let joiners = joiners_of(alloc, parts)?;
        Ok(Stated {
            setting,
            fuel,
            parts,
            places,
            numbers,
            indices,
            joiners,
        })
    }

    /// The stated part of a revision.
    pub fn part(&self, path: &Path) -> Option<&'a Part>
        requires { InPostOrder self.now.parts.now }
        ensures { option_copied result ≡ part_at self.now.parts.now path.now }
    {
        match self.indices.find(path) {
            Some(i) => Some(self.nth_part(i)),
            None => None,
        }
    }

    /// The stated part of this number.
    pub fn nth_part(&self, number: usize) -> &'a Part
        requires { number < length self.now.parts.now }
        ensures { slice_get self.now.parts.now number ≡ Some result.now }
    {
        &self.parts[number]
    }

    /// The number of the location of a place.
    pub fn number(&self, place: &[u8]) -> Option<u32>
        ensures { result ≡ spec.number_of (spec.places (given self.now.setting)) place.now }
    {
        self.numbers.find(place)
    }
}
