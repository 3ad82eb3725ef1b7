//! The locals of a frame, found by the numbers of their names.

ghost use Rattle.std.specs.Prelude.{◌≡◌, ◌<◌, ◌∷◌, ◌++◌, ◌||◌, [], IfOk, IfSome, None, OnOk};
ghost use Rattle.std.specs.Prelude.{is_none, length, option_copied, position, replicate};
ghost use Rattle.name_tables.specs.Names.{same};
ghost use Rattle.name_tables.specs.Table.{find};
ghost use Rattle.revision_calculus.specs.Evaluation as calculus;
ghost use Rattle.revision_state.specs.LocalPlaces.{noted};

use crate::body_names::BodyNames;
use rev_num::Value;
use std::alloc::{AllocError, Global};
use std::marker::Model;
use std::rc::Rc;

/// A local, with its value.
#[derive(Drop)]
struct Binding<'a> {
    name: &'a [u8],
    value: Value,
}

impl<'a> Model for Binding<'a> {
    ghost use Rattle.revision_state.specs.LocalCodes.{Bound, coded_binding};

    ghost Value = { Bound };

    ghost coded = { coded_binding };

    ghost view = { λ b. (b.name.now, b.value) };
}

impl<'a> Binding<'a> {
    /// A local of this name.
    fn new(name: &'a [u8], value: Value) -> Binding<'a>
        ensures { result ≡ (name.now, value) }
    {
        Binding { name, value }
    }

    fn name(&self) -> &'a [u8]
        ensures { result.now ≡ self.now.0 }
    {
        self.name
    }

    fn value(&self) -> &Value
        ensures { result.now ≡ self.now.1 }
    {
        &self.value
    }

    /// Whether it has this name.
    fn has(&self, name: &[u8]) -> bool
        ensures { result ≡ same name.now self.now.0 }
    {
        name == self.name
    }

    /// It has this value from now on.
    fn change(&mut self, value: Value)
        ensures { self.new ≡ (self.old.0, value) }
    {
        self.value = value;
    }
}

/// The locals of a frame. Contracts see the list of their names and values, in the order in which
/// they came.
///
/// Of locals of one name the first counts. It is found by the number that the table of the frame's
/// body has for the name.
#[derive(Drop)]
pub struct Locals<'a> {
    bindings: Vec<Binding<'a>>,
    /// The names of the frame's body.
    names: Rc<BodyNames>,
    /// At the number of each of these names: where the first local of the name stands.
    places: Vec<Option<usize>>,
    /// Whether there is a local whose name is none of these. In a typed program there is not.
    others: bool,
}

impl<'a> Model for Locals<'a> {
    ghost use Rattle.std.specs.Prelude.{List};
    ghost use Rattle.std.specs.Coded.{coded_list};
    ghost use Rattle.revision_state.specs.LocalCodes.{Bound, coded_binding};
    ghost use Rattle.revision_state.specs.LocalPlaces.{AreKnown, IsPlaced};

    ghost Value = { List Bound };

    ghost coded = { coded_list coded_binding };

    ghost view = { λ l. l.bindings.items };

    ghost invariant = { λ l. IsPlaced l.names.value.numbers l.places.items l.bindings.items
        × AreKnown l.names.value.numbers l.others l.bindings.items };
}

/// So many places at which nothing stands yet.
fn no_places(alloc: Global, count: usize) -> Result<Vec<Option<usize>>, AllocError>
    ensures { IfOk result (λ places. places.items ≡ replicate count None) }
{
    let mut places = Vec::with_capacity(alloc, count)?;
    places.resize(count, None)?;
    Ok(places)
}

/// The place of the first of these locals that has this name, which is looked for one by one.
fn scanned(bindings: &[Binding], name: &[u8]) -> Option<usize>
    ensures { result ≡ position (λ e. same name.now e.0) bindings.now }
{
    bindings.iter().position(|binding| binding.has(name))
}

/// A local stands at this place whose name has this number, if it has one. The first of a name
/// stays.
fn note(places: &mut Vec<Option<usize>>, number: Option<usize>, at: usize)
    requires { IfSome number (λ k. k < length places.old.items) }
    ensures { places.new.items ≡ noted places.old.items number at }
{
    if let Some(number) = number {
        if places[number].is_none() {
            places[number] = Some(at);
        }
    }
}

/// Whether there is a local whose name has no number, after one more, whose name has this one.
fn has_others(others: bool, number: Option<usize>) -> bool
    ensures { result ≡ (others || is_none number) }
{
    others || number.is_none()
}

impl<'a> Locals<'a> {
    /// No locals, with room for one of each of these names.
    pub(crate) fn new(alloc: Global, names: Rc<BodyNames>) -> Result<Locals<'a>, AllocError>
        ensures { IfOk result (λ l. l ≡ []) }
    {
        let places = no_places(alloc, names.len())?;
        Ok(Locals {
            bindings: Vec::with_capacity(alloc, names.len())?,
            names,
            places,
            others: false,
        })
    }

    /// How many there are.
    pub fn len(&self) -> usize
        ensures { result ≡ length self.now }
    {
        self.bindings.len()
    }

    /// The place of the first local of this name. The name of a shared variable has no number, and
    /// no local has it in a typed program; where some local has such a name all are gone over.
    fn place(&self, name: &[u8]) -> Option<usize>
        ensures { result ≡ position (λ e. same name.now e.0) self.now }
    {
        match self.names.number(name) {
            Some(number) => self.places[number],
            None => {
                if self.others {
                    return scanned(&self.bindings, name);
                }
                None
            }
        }
    }

    /// The value of the local of this name, if there is one.
    pub fn get(&self, name: &[u8]) -> Option<&Value>
        ensures { option_copied result ≡ find name.now self.now }
    {
        match self.place(name) {
            Some(at) => Some(self.bindings[at].value()),
            None => None,
        }
    }

    /// Appends a local, also where there is one of its name, which then goes on to count.
    pub fn push(&mut self, name: &'a [u8], value: Value) -> Result<(), AllocError>
        ensures { OnOk result (self.new ≡ self.old ++ (name.now, value) ∷ []) }
    {
        let number = self.names.number(name);
        let at = self.bindings.len();
        self.bindings.push(Binding::new(name, value))?;
        note(&mut self.places, number, at);
        self.others = has_others(self.others, number);
        Ok(())
    }

    /// The value goes to the local of this name, which is new if there was none.
    pub fn set(&mut self, name: &'a [u8], value: Value) -> Result<(), AllocError>
        ensures { OnOk result (self.new ≡ calculus.with_local self.old name.now value) }
    {
        match self.place(name) {
            Some(at) => self.bindings[at].change(value),
            None => self.push(name, value)?,
        }
        Ok(())
    }

    /// Equal locals.
    pub fn copy(&self, alloc: Global) -> Result<Locals<'a>, AllocError>
        ensures { IfOk result (λ l. l ≡ self.now) }
    {
        let mut copy = Locals::new(alloc, self.names.clone()?)?;
        for binding in &self.bindings {
            copy.push(binding.name(), binding.value().copy(alloc)?)?;
        }
        Ok(copy)
    }
}
