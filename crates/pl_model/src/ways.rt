//! How each edit changes a plate.
ghost use Rattle.std.specs.Prelude.{◌≡◌, ◌<◌, Some, None, OnOk, OnErr, IfOk, length};
ghost use Rattle.pl_model.specs.Finding.{object_at};
ghost use Rattle.pl_model.specs.Contents.{with_place};
ghost use Rattle.pl_model.specs.Outcomes.{outcome, loaded, deleted, in_object, set, configured};
ghost use Rattle.pl_model.specs.Changes.{change_by};
ghost use Rattle.pl_model.specs.Stops.{Makes};

use crate::finding::{free_place, ini_in, key_in, mesh_in, value_in};
use crate::instances::Instances;
use crate::object::Object;
use crate::plate::Plate;
use crate::stop::Stop;
use pl_edit::{Block, Edit, EditRefusal, EditReply, ValueText};
use pl_options::Overrides;
use pl_units::Text;
use std::alloc::Global;

impl Plate {
    // Makes an edit. After a refusal and for want of memory the plate is as before.
    pub(crate) fn make(&mut self, alloc: Global, edit: &Edit) -> Result<EditReply, Stop>
        ensures { Makes (outcome self.old edit.now) self.old self.new result }
    {
        match edit {
            Edit::Load { name, block } => self.load(alloc, name, block.get()),
            Edit::Delete { place } => self.delete(*place),
            Edit::Set { key, value } => self.set(alloc, key, value),
            Edit::Ini { block } => self.put_ini(alloc, block.get()),
            Edit::Reload { place, .. } => self.change(alloc, *place, edit),
            Edit::Copy { place, .. } => self.change(alloc, *place, edit),
            Edit::Move { place, .. } => self.change(alloc, *place, edit),
            Edit::Drop { place, .. } => self.change(alloc, *place, edit),
            Edit::Turn { place, .. } => self.change(alloc, *place, edit),
            Edit::Override { place, .. } => self.change(alloc, *place, edit),
            Edit::Unset { place, .. } => self.change(alloc, *place, edit),
        }
    }

    fn load(&mut self, alloc: Global, name: &Text, block: &Block) -> Result<EditReply, Stop>
        ensures { Makes (loaded self.old name.now block.now) self.old self.new result }
    {
        let mesh = mesh_in(alloc, block)?;
        let place = free_place(&self.places)?;
        let object = Object {
            name: Text::copy_of(alloc, name.bytes())?,
            mesh,
            quarter: 0,
            overrides: Overrides::new(alloc),
            instances: Instances::one(alloc)?,
        };
        self.places[place] = Some(object);
        Ok(EditReply::Object(place as u8))
    }

    fn delete(&mut self, place: u8) -> Result<EditReply, Stop>
        ensures { Makes (deleted self.old place) self.old self.new result }
    {
        if self.object(place).is_none() {
            return Err(Stop::Refused(EditRefusal::NoObject));
        }
        self.places[usize::from(place)] = None;
        Ok(EditReply::Done)
    }

    // Takes the object out of a place.
    fn take(&mut self, place: u8) -> Result<Object, EditRefusal>
        ensures object { result ≡ object_at self.old.places place }
        ensures taken { OnOk result (self.new ≡ with_place self.old place None) }
        ensures err { OnErr result (self.new ≡ self.old) }
        ensures there { OnOk result (place < length self.old.places) }
        ensures turned { IfOk result (λ object. object.quarter < 4) }
        ensures sixteen { length self.new.places ≡ length self.old.places }
    {
        let at = usize::from(place);
        if at >= self.places.len() {
            return Err(EditRefusal::NoObject);
        }
        self.places[at].take().ok_or(EditRefusal::NoObject)
    }

    // Puts an object into a place.
    fn put(&mut self, place: u8, object: Object)
        requires there { place < length self.old.places }
        requires turned { object.quarter < 4 }
        ensures { self.new ≡ with_place self.old place (Some object) }
    {
        self.places[usize::from(place)] = Some(object);
    }

    fn change(&mut self, alloc: Global, place: u8, edit: &Edit) -> Result<EditReply, Stop>
        ensures { Makes (in_object self.old place (change_by edit.now)) self.old self.new result }
    {
        let mut object = self.take(place)?;
        let changed = object.change(alloc, edit);
        self.put(place, object);
        changed
    }

    fn set(&mut self, alloc: Global, key: &Text, value: &ValueText) -> Result<EditReply, Stop>
        ensures { Makes (set self.old key.now value.now) self.old self.new result }
    {
        let key = key_in(key.bytes())?;
        let value = value_in(alloc, key, value)?;
        self.config.put(key, value);
        Ok(EditReply::Done)
    }

    fn put_ini(&mut self, alloc: Global, block: &Block) -> Result<EditReply, Stop>
        ensures { Makes (configured self.old block.now) self.old self.new result }
    {
        let set = ini_in(alloc, block)?;
        let (taken, passed) = (set.taken(), set.passed());
        self.config.put_all(set);
        Ok(EditReply::Set { taken, passed })
    }
}
