//! The instances of an object.
ghost use Rattle.std.specs.Prelude.{◌≡◌, ◌<◌, ◌≤◌, ◌++◌, ◌∷◌, [], length, slice_set, remove, IfOk, OnOk, OnErr};
ghost use Rattle.pl_model.specs.Shifts.{origin};

use pl_units::{Nm, NoMemory};
use std::alloc::Global;
use std::marker::Model;

/// Where an instance stands, in nanometres to the right and upwards.
#[derive(Clone, Copy, Debug, PartialEq, Eq)]
pub struct Shift {
    pub x: Nm,
    pub y: Nm,
}

/// The shifts of 1 to 16 instances, in order.
#[derive(Drop)]
pub struct Instances {
    shifts: Vec<Shift>,
}

impl Model for Instances {
    ghost use Rattle.std.specs.Prelude.{List, ◌≤◌, length};
    ghost use Rattle.pl_model.specs.declared.instances.Shift.{Shift};

    ghost Value = { List Shift };

    ghost view = { λ i. i.shifts.items };

    ghost invariant = { λ i. (1 ≤ length i.shifts.items) × (length i.shifts.items ≤ 16) };
}

impl Instances {
    /// Instances at these shifts, 1 to 16. It takes no memory.
    pub fn of(shifts: Vec<Shift>) -> Instances
        requires some { 1 ≤ length shifts.items }
        requires few { length shifts.items ≤ 16 }
        ensures { result ≡ shifts.items }
    {
        Instances { shifts }
    }

    /// One instance at 0 0.
    pub fn one(alloc: Global) -> Result<Instances, NoMemory>
        ensures { IfOk result (λ i. i ≡ origin ∷ []) }
    {
        let mut shifts = Vec::new(alloc);
        shifts.push(Shift { x: Nm(0), y: Nm(0) })?;
        Ok(Instances { shifts })
    }

    /// The shifts, 1 to 16, in order.
    pub fn shifts(&self) -> &[Shift]
        ensures shifts { result.now ≡ self.now }
        ensures some { 1 ≤ length result.now }
        ensures few { length result.now ≤ 16 }
    {
        &self.shifts
    }

    /// The shifts in order, given back. It takes no memory.
    pub fn into_shifts(self) -> Vec<Shift>
        ensures { result.items ≡ self }
    {
        self.shifts
    }

    // Puts one more at the end, where there are fewer than 16. After want of memory they are as before.
    pub(crate) fn push(&mut self, shift: Shift) -> Result<(), NoMemory>
        requires { length self.old < 16 }
        ensures ok { OnOk result (self.new ≡ self.old ++ shift ∷ []) }
        ensures err { OnErr result (self.new ≡ self.old) }
    {
        self.shifts.push(shift)?;
        Ok(())
    }

    // Gives the instance of a number another shift.
    pub(crate) fn set(&mut self, number: usize, shift: Shift)
        requires { number < length self.old }
        ensures { self.new ≡ slice_set self.old number shift }
    {
        self.shifts[number] = shift;
    }

    // Takes the instance of a number away, where it is not the only one. The later ones move down.
    pub(crate) fn remove(&mut self, number: usize)
        requires number { number < length self.old }
        requires others { 1 < length self.old }
        ensures { self.new ≡ remove self.old number }
    {
        self.shifts.remove(number);
    }

    /// Equal instances.
    pub fn copied(&self, alloc: Global) -> Result<Instances, NoMemory>
        ensures { IfOk result (λ copy. copy ≡ self.now) }
    {
        Ok(Instances {
            shifts: Vec::from_slice(alloc, &self.shifts)?,
        })
    }
}
