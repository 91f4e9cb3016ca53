//! The objects of a plate.
ghost use Rattle.std.specs.Prelude.{◌≡◌, ◌↔◌, false, IfOk, IsTrue};
ghost use Rattle.pl_model.specs.Same.{IsAlike};

use crate::instances::Instances;
use pl_options::Overrides;
use pl_stl::Mesh;
use pl_units::{NoMemory, Shared, Text};
use std::alloc::Global;

/// A mesh and how it is printed. A copy has the same mesh and no copy of it.
#[derive(Drop)]
pub struct Object {
    /// The name.
    pub name: Text,
    /// The mesh, before its turn.
    pub mesh: Shared<Mesh>,
    /// How many quarter turns counterclockwise the mesh is turned; from 0 to 3 for an object of a plate.
    pub quarter: u8,
    /// What the object has of its own for options.
    pub overrides: Overrides,
    /// Where it is printed.
    pub instances: Instances,
}

impl Object {
    /// An equal object, with the same mesh.
    pub fn copied(&self, alloc: Global) -> Result<Object, NoMemory>
        ensures { IfOk result (λ copy. copy ≡ self.now) }
    {
        Ok(Object {
            name: Text::copy_of(alloc, self.name.bytes())?,
            mesh: self.mesh.copied()?,
            quarter: self.quarter,
            overrides: self.overrides.copied()?,
            instances: self.instances.copied(alloc)?,
        })
    }

    // Whether name, turn and instances are equal.
    fn is_alike(&self, other: &Object) -> bool
        ensures { IsTrue result ↔ IsAlike self.now other.now }
    {
        if self.quarter != other.quarter {
            return false;
        }
        let names = self.name.bytes() == other.name.bytes();
        if !names {
            return false;
        }
        self.instances.shifts() == other.instances.shifts()
    }

    /// Whether the meshes are equal, of the same facets in the same order. They are, unless they may be apart.
    pub fn same_mesh(&self, other: &Object, apart: bool) -> bool
        requires { apart ≡ false → self.now.mesh ≡ other.now.mesh }
        ensures { IsTrue result ↔ (self.now.mesh ≡ other.now.mesh) }
    {
        if !apart {
            return true;
        }
        self.mesh.get().facets() == other.mesh.get().facets()
    }

    /// Whether two objects are equal, whose meshes are unless they may be apart.
    pub fn same_but(&self, other: &Object, apart: bool) -> bool
        requires { apart ≡ false → self.now.mesh ≡ other.now.mesh }
        ensures { IsTrue result ↔ (self.now ≡ other.now) }
    {
        let alike = self.is_alike(other);
        let overrides = self.overrides.same(&other.overrides);
        if !alike || !overrides {
            return false;
        }
        self.same_mesh(other, apart)
    }

    /// Whether two objects are equal: of the same name, the same facets in the same order, turn, overrides and instances.
    pub fn same(&self, other: &Object) -> bool
        ensures { IsTrue result ↔ (self.now ≡ other.now) }
    {
        self.same_but(other, true)
    }
}
