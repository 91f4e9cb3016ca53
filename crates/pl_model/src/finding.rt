//! What an edit names.
ghost use Rattle.std.specs.Prelude.{◌≡◌, ◌<◌, ◌≤◌, ◌^◌, length, position, IfOk};
ghost use Rattle.std.specs.Option.{is_none};
ghost use Rattle.pl_keys.specs.Values.{IsValueOf};
ghost use Rattle.pl_options.specs.KeyMap.{Fits};
ghost use Rattle.pl_model.specs.Finding.{key_in, object_key, value_in, mesh_in, ini_in, free_place, room_in, instance_at, others_in};
ghost use Rattle.pl_model.specs.Stops.{Finds};

use crate::instances::Shift;
use crate::object::Object;
use crate::stop::Stop;
use pl_edit::{Block, EditRefusal, ValueText};
use pl_options::{IniSet, Key, Value, ValueStop, is_object_key, key_of, read_ini, read_value};
use pl_stl::Mesh;
use pl_units::{Refusal, Shared};
use std::alloc::Global;

/// The option of a key.
pub(crate) fn key_in(text: &[u8]) -> Result<Key, EditRefusal>
    ensures { result ≡ key_in text.now }
{
    key_of(text).ok_or(EditRefusal::UnknownKey)
}

/// An option that objects have values of their own of.
pub(crate) fn object_key(key: Key) -> Result<Key, EditRefusal>
    ensures { result ≡ object_key key }
{
    if is_object_key(key) {
        Ok(key)
    } else {
        Err(EditRefusal::NotObjectKey)
    }
}

/// The value of an option that a text gives.
pub(crate) fn value_in(alloc: Global, key: Key, text: &ValueText) -> Result<Value, Stop>
    ensures said { Finds (value_in key text.now) result }
    ensures fits { IfOk result (IsValueOf key) }
{
    match read_value(alloc, key, text.bytes()) {
        Ok(value) => Ok(value),
        Err(ValueStop::BadValue) => Err(Stop::Refused(EditRefusal::BadValue)),
        Err(ValueStop::OutOfRange) => Err(Stop::Refused(EditRefusal::OutOfRange)),
        Err(ValueStop::NoMemory) => Err(Stop::NoMemory),
    }
}

/// The mesh of a block.
pub(crate) fn mesh_in(alloc: Global, block: &Block) -> Result<Shared<Mesh>, Stop>
    ensures { Finds (mesh_in block.now.bytes) result }
{
    match block.mesh(alloc) {
        Ok(mesh) => Ok(mesh),
        Err(Refusal::Fault { line, fault }) => Err(Stop::Refused(EditRefusal::BadStl(line, fault))),
        Err(Refusal::NoMemory) => Err(Stop::NoMemory),
    }
}

/// The settings of a block.
pub(crate) fn ini_in(alloc: Global, block: &Block) -> Result<IniSet, Stop>
    ensures { Finds (ini_in block.now.bytes) result }
{
    match read_ini(alloc, block.bytes()) {
        Ok(set) => Ok(set),
        Err(Refusal::Fault { line, fault }) => Err(Stop::Refused(EditRefusal::BadIni(line, fault))),
        Err(Refusal::NoMemory) => Err(Stop::NoMemory),
    }
}

// The first place that is empty.
fn first_empty(places: &[Option<Object>]) -> Option<usize>
    ensures { result ≡ position is_none places.now }
{
    places.iter().position(|place| place.is_none())
}

/// The least free place.
pub(crate) fn free_place(places: &[Option<Object>]) -> Result<usize, EditRefusal>
    ensures place { result ≡ free_place places.now }
    ensures there { IfOk result (λ place. place < length places.now) }
{
    first_empty(places).ok_or(EditRefusal::FullObjects)
}

/// How many instances an object has, where there may be one more.
pub(crate) fn room_in(object: &Object) -> Result<u8, EditRefusal>
    ensures count { result ≡ room_in object.now }
    ensures room { IfOk result (λ count. count < 16) }
{
    let count = object.instances.shifts().len();
    if count < 16 {
        Ok(count as u8)
    } else {
        Err(EditRefusal::FullInstances)
    }
}

/// The instance of a number.
pub(crate) fn instance_at(object: &Object, instance: u8) -> Result<Shift, EditRefusal>
    ensures shift { result ≡ instance_at object.now instance }
    ensures there { IfOk result (λ _. instance < length object.now.instances) }
{
    object
        .instances
        .shifts()
        .get(usize::from(instance))
        .copied()
        .ok_or(EditRefusal::NoInstance)
}

/// How many instances an object has, where there is another one.
pub(crate) fn others_in(object: &Object) -> Result<usize, EditRefusal>
    ensures count { result ≡ others_in object.now }
    ensures others { IfOk result (λ _. 1 < length object.now.instances) }
{
    let count = object.instances.shifts().len();
    if count == 1 {
        Err(EditRefusal::LastInstance)
    } else {
        Ok(count)
    }
}
