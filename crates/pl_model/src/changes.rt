//! What edits change of an object.
ghost use Rattle.std.specs.Prelude.{◌≡◌, ◌<◌};
ghost use Rattle.pl_model.specs.Outcomes.{reloaded, copied, moved, dropped, turned, overridden, unset};
ghost use Rattle.pl_model.specs.Changes.{change_by};
ghost use Rattle.pl_model.specs.Stops.{Changes};

use crate::finding::{instance_at, key_in, mesh_in, object_key, others_in, room_in, value_in};
use crate::instances::Shift;
use crate::object::Object;
use crate::stop::Stop;
use pl_edit::{Block, Edit, EditReply, ValueText};
use pl_units::Text;
use std::alloc::Global;

impl Object {
    /// Makes the edit's change. After a refusal and for want of memory the object is as before.
    pub(crate) fn change(&mut self, alloc: Global, edit: &Edit) -> Result<EditReply, Stop>
        ensures change { Changes (change_by edit.now self.old) self.old self.new result }
        ensures turned { self.old.quarter < 4 → self.new.quarter < 4 }
    {
        match edit {
            Edit::Reload { place: _, block } => self.reload(alloc, block.get()),
            Edit::Copy { place: _, x, y } => self.copy(Shift { x: *x, y: *y }),
            Edit::Move {
                place: _,
                instance,
                x,
                y,
            } => self.shift(*instance, Shift { x: *x, y: *y }),
            Edit::Drop { place: _, instance } => self.drop_instance(*instance),
            Edit::Turn { place: _, quarter } => self.turn(*quarter),
            Edit::Override {
                place: _,
                key,
                value,
            } => self.override_value(alloc, key, value),
            Edit::Unset { place: _, key } => self.unset(key),
            _ => Ok(EditReply::Done),
        }
    }

    fn reload(&mut self, alloc: Global, block: &Block) -> Result<EditReply, Stop>
        ensures change { Changes (reloaded block.now self.old) self.old self.new result }
        ensures turned { self.old.quarter < 4 → self.new.quarter < 4 }
    {
        self.mesh = mesh_in(alloc, block)?;
        Ok(EditReply::Done)
    }

    fn copy(&mut self, shift: Shift) -> Result<EditReply, Stop>
        ensures change { Changes (copied shift self.old) self.old self.new result }
        ensures turned { self.old.quarter < 4 → self.new.quarter < 4 }
    {
        let count = room_in(self)?;
        self.instances.push(shift)?;
        Ok(EditReply::Instance(count))
    }

    fn shift(&mut self, instance: u8, shift: Shift) -> Result<EditReply, Stop>
        ensures change { Changes (moved instance shift self.old) self.old self.new result }
        ensures turned { self.old.quarter < 4 → self.new.quarter < 4 }
    {
        instance_at(self, instance)?;
        self.instances.set(usize::from(instance), shift);
        Ok(EditReply::Done)
    }

    fn drop_instance(&mut self, instance: u8) -> Result<EditReply, Stop>
        ensures change { Changes (dropped instance self.old) self.old self.new result }
        ensures turned { self.old.quarter < 4 → self.new.quarter < 4 }
    {
        instance_at(self, instance)?;
        others_in(self)?;
        self.instances.remove(usize::from(instance));
        Ok(EditReply::Done)
    }

    fn turn(&mut self, quarter: u8) -> Result<EditReply, Stop>
        ensures change { Changes (turned quarter self.old) self.old self.new result }
        ensures turned { self.old.quarter < 4 → self.new.quarter < 4 }
    {
        self.quarter = quarter % 4;
        Ok(EditReply::Done)
    }

    fn override_value(
        &mut self,
        alloc: Global,
        key: &Text,
        value: &ValueText,
    ) -> Result<EditReply, Stop>
        ensures change { Changes (overridden key.now value.now self.old) self.old self.new result }
        ensures turned { self.old.quarter < 4 → self.new.quarter < 4 }
    {
        let key = object_key(key_in(key.bytes())?)?;
        let value = value_in(alloc, key, value)?;
        self.overrides.put(key, value)?;
        Ok(EditReply::Done)
    }

    fn unset(&mut self, key: &Text) -> Result<EditReply, Stop>
        ensures change { Changes (unset key.now self.old) self.old self.new result }
        ensures turned { self.old.quarter < 4 → self.new.quarter < 4 }
    {
        let key = object_key(key_in(key.bytes())?)?;
        self.overrides.remove(key);
        Ok(EditReply::Done)
    }
}
