//! The plate.
ghost use Rattle.std.specs.Prelude.{◌≡◌, ◌<◌, ◌↔◌, Some, None, IfOk, IfSome, IsSome, OnErr, IsTrue, MatchOption, replicate, ℕ, length, true, false};
ghost use Rattle.pl_tech.specs.Slots.{has};
ghost use Rattle.pl_model.specs.Meshes.{mesh_there, mesh_at, ShareMeshes};
ghost use Rattle.std.specs.Option.{option_copied};
ghost use Rattle.pl_keys.specs.Values.{IsValueOf};
ghost use Rattle.pl_model.specs.Places.{ArePlaces, place_in};
ghost use Rattle.pl_model.specs.Contents.{blank};
ghost use Rattle.pl_model.specs.Effective.{effective};
ghost use Rattle.pl_model.specs.Editing.{IsEdited};
ghost use Rattle.pl_model.specs.Outcomes.{edited, edit_reply};
ghost use Rattle.pl_model.specs.Printable.{HasProblem, CanBePrinted};
ghost use Rattle.pl_model.specs.Problem.{problem_of};
ghost use Rattle.pl_model.specs.Same.{same_plates};

use crate::effective::value_for;
use crate::meshes::all_places;
use crate::object::Object;
use crate::problem::{first_problem, is_empty};
use crate::stop::Stop;
use pl_edit::{Edit, EditReply};
use pl_options::{Config, Key, Value};
use pl_tech::{Problem, Slot, SlotSet};
use pl_units::NoMemory;
use std::alloc::Global;
use std::marker::Model;

/// A configuration and sixteen places, each empty or with an object.
#[derive(Drop)]
pub struct Plate {
    pub(crate) config: Config,
    pub(crate) places: Vec<Option<Object>>,
}

impl Model for Plate {
    ghost use Rattle.pl_model.specs.Places.{ArePlaces};
    ghost use Rattle.pl_model.specs.Contents.{Contents, contents_code};

    ghost Value = { Contents };

    ghost coded = { contents_code };

    ghost view = { λ p. record { config = p.config; places = p.places.items } };

    ghost invariant = { λ p. ArePlaces p.places.items };
}

// Whether both places are empty, or have equal objects.
fn same_place(one: &Option<Object>, other: &Option<Object>, apart: bool) -> bool
    requires { apart ≡ false → mesh_there one.now ≡ mesh_there other.now }
    ensures { IsTrue result ↔ (one.now ≡ other.now) }
{
    match (one, other) {
        (Some(object), Some(another)) => object.same_but(another, apart),
        (None, None) => true,
        _ => false,
    }
}

// Whether both lists have equal places.
fn same_places(some: &[Option<Object>], others: &[Option<Object>], apart: SlotSet) -> bool
    requires sixteen { length some.now ≡ 16 }
    requires alike { (place : ℕ) → place < 16 → has apart place ≡ false → mesh_at some.now place ≡ mesh_at others.now place }
    ensures { IsTrue result ↔ (some.now ≡ others.now) }
{
    if some.len() != others.len() {
        return false;
    }
    for at in 0..some.len() {
        if !same_place(&some[at], &others[at], apart.has(Slot::of(at as u8))) {
            return false;
        }
    }
    true
}

// An equal place, with the same mesh.
fn copied_place(alloc: Global, place: &Option<Object>) -> Result<Option<Object>, NoMemory>
    ensures { IfOk result (λ copy. copy ≡ place.now) }
{
    match place {
        Some(object) => Ok(Some(object.copied(alloc)?)),
        None => Ok(None),
    }
}

// Sixteen empty places.
fn empty_places(alloc: Global) -> Result<Vec<Option<Object>>, NoMemory>
    ensures { IfOk result (λ places. places.items ≡ replicate 16 None) }
{
    let mut places = Vec::new(alloc);
    for _place in 0..16u8 {
        places.push(None)?;
    }
    Ok(places)
}

// Equal places, with the same meshes.
fn copied_places(alloc: Global, places: &[Option<Object>]) -> Result<Vec<Option<Object>>, NoMemory>
    ensures { IfOk result (λ copies. copies.items ≡ places.now) }
{
    let mut copies = Vec::new(alloc);
    for place in places {
        copies.push(copied_place(alloc, place)?)?;
    }
    Ok(copies)
}

impl Plate {
    /// The plate at the start: each option has the table's default, and no place is filled.
    pub fn blank(alloc: Global) -> Result<Plate, NoMemory>
        ensures { IfOk result (λ plate. plate ≡ blank) }
    {
        let places = empty_places(alloc)?;
        let config = Config::defaults(alloc)?;
        Ok(Plate { config, places })
    }

    /// An equal plate, with the same meshes.
    pub fn copied(&self, alloc: Global) -> Result<Plate, NoMemory>
        ensures { IfOk result (λ copy. copy ≡ self.now) }
    {
        let places = copied_places(alloc, &self.places)?;
        let config = self.config.copied()?;
        Ok(Plate { config, places })
    }

    // Whether configurations and places are equal, where all meshes but these are.
    fn is_equal(&self, other: &Plate, apart: SlotSet) -> bool
        requires { ShareMeshes apart self.now other.now }
        ensures { IsTrue result ↔ (self.now ≡ other.now) }
    {
        self.config.same(&other.config) && same_places(&self.places, &other.places, apart)
    }

    /// Whether two plates are equal, where the meshes at all places but these are.
    pub fn same_but(&self, other: &Plate, apart: SlotSet) -> bool
        requires { ShareMeshes apart self.now other.now }
        ensures same { result ≡ same_plates self.now other.now }
        ensures equal { IsTrue result ↔ (self.now ≡ other.now) }
    {
        self.is_equal(other, apart)
    }

    /// Whether two plates are equal: of equal configurations, and in each place both are empty or have equal objects.
    pub fn same(&self, other: &Plate) -> bool
        ensures same { result ≡ same_plates self.now other.now }
        ensures equal { IsTrue result ↔ (self.now ≡ other.now) }
    {
        self.same_but(other, all_places())
    }

    /// The object at a place. `None` exactly where the place is empty or above 15.
    pub fn object(&self, place: u8) -> Option<&Object>
        ensures object { option_copied result ≡ place_in self.now.places place }
        ensures turned { IfSome result (λ object. object.now.quarter < 4) }
    {
        match self.places.get(usize::from(place)) {
            Some(Some(object)) => Some(object),
            _ => None,
        }
    }

    /// The sixteen places in order, each empty or with an object.
    pub fn places(&self) -> &[Option<Object>]
        ensures places { result.now ≡ self.now.places }
        ensures kept { ArePlaces result.now }
    {
        &self.places
    }

    /// The configuration.
    pub fn config(&self) -> &Config
        ensures { result.now ≡ self.now.config }
    {
        &self.config
    }

    /// The value of an option that holds for the object at a place: the object's own, else the configuration's.
    pub fn effective(&self, place: u8, key: Key) -> &Value
        requires filled { IsSome (place_in self.now.places place) }
        ensures value { effective self.now place key ≡ Some result.now }
        ensures fits { IsValueOf key result.now }
    {
        match self.object(place) {
            Some(object) => value_for(&self.config, object, key),
            None => self.config.get(key),
        }
    }

    // The first problem, as it is computed.
    fn reason(&self) -> Option<Problem>
        ensures { result ≡ problem_of self.now }
    {
        if is_empty(&self.places) {
            return Some(Problem::Empty);
        }
        first_problem(&self.config, &self.places)
    }

    /// Why the plate can't be printed, if it can't: the first of `Empty`, where no place is filled; then for the places in order
    /// `OutOfBed` for the first instance whose box of cells is not inside the bed of 625 by 525 cells, and after the place's
    /// instances `TooManyCells`, where columns times rows times layers exceed 2^24.
    pub fn problem(&self) -> Option<Problem>
        ensures problem { result ≡ problem_of self.now }
        ensures told { MatchOption result (CanBePrinted self.now) (HasProblem self.now) }
    {
        self.reason()
    }

    // Makes an edit, and answers, as it is computed.
    fn answer(&mut self, alloc: Global, edit: &Edit) -> Result<EditReply, NoMemory>
        ensures reply { IfOk result (λ reply. reply ≡ edit_reply self.old edit.now) }
        ensures plate { IfOk result (λ _. self.new ≡ edited self.old edit.now) }
        ensures err { OnErr result (self.new ≡ self.old) }
    {
        match self.make(alloc, edit) {
            Ok(reply) => Ok(reply),
            Err(Stop::Refused(refusal)) => Ok(EditReply::Refused(refusal)),
            Err(Stop::NoMemory) => Err(NoMemory),
        }
    }

    /// Changes the plate, and answers. A refused edit leaves the plate, and so does want of memory.
    pub fn edit(&mut self, alloc: Global, edit: &Edit) -> Result<EditReply, NoMemory>
        ensures reply { IfOk result (λ reply. reply ≡ edit_reply self.old edit.now) }
        ensures plate { IfOk result (λ _. self.new ≡ edited self.old edit.now) }
        ensures told { IfOk result (λ reply. IsEdited self.old edit.now reply self.new) }
        ensures err { OnErr result (self.new ≡ self.old) }
    {
        let _ = &self.config;
        self.answer(alloc, edit)
    }
}
