//! The objects of all places of a wiring.

ghost use Rattle.std.specs.Prelude.{◌≡◌, ◌≤◌, length, map, IfOk};
ghost use Rattle.ccr_base.specs.Bounds.{most_places};
ghost use Rattle.ccr_object.specs.Numbers.{numbers_of};
ghost use Rattle.ccr_object.specs.Objects.{placed};
ghost use Rattle.ccr_object.specs.Starts.{places_of, placed_at};

use crate::numbers::Numbers;
use crate::object::PlaceObject;
use crate::starting::{object_at, places_of};
use ccr_base::{List, OutOfMemory, Place};
use ccr_wiring::Wiring;
use std::alloc::Global;
use std::sync::Arc;

/// One object for each place, in the order of `places_of`. They share the numbers of the wiring.
pub fn place_objects(alloc: Global, wiring: &Wiring) -> Result<List<PlaceObject>, OutOfMemory>
    ensures objects { IfOk result (λ objects. map placed objects ≡ map (placed_at wiring.now) (places_of wiring.now)) }
    ensures count { IfOk result (λ objects. (1 ≤ length objects) × (length objects ≤ most_places)) }
{
    let numbers = Arc::new(alloc, Numbers::of(alloc, wiring)?)?;
    let places = places_of(alloc, wiring)?;
    all_objects(alloc, wiring, &numbers, places.as_slice())
}

fn all_objects(
    alloc: Global,
    wiring: &Wiring,
    numbers: &Arc<Numbers>,
    places: &[Place],
) -> Result<List<PlaceObject>, OutOfMemory>
    requires { numbers.now.value ≡ numbers_of wiring.now }
    ensures objects { IfOk result (λ objects. map placed objects ≡ map (placed_at wiring.now) places.now) }
    ensures count { IfOk result (λ objects. length objects ≡ length places.now) }
{
    let mut objects = Vec::new(alloc);
    for place in places {
        objects.push(place_object(alloc, wiring, numbers, *place)?)?;
    }
    Ok(List::from_vec(objects))
}

fn place_object(
    alloc: Global,
    wiring: &Wiring,
    numbers: &Arc<Numbers>,
    place: Place,
) -> Result<PlaceObject, OutOfMemory>
    requires { numbers.now.value ≡ numbers_of wiring.now }
    ensures { IfOk result (λ object. placed object ≡ placed_at wiring.now place) }
{
    Ok(PlaceObject {
        alloc,
        numbers: Arc::try_clone(numbers)?,
        object: Box::new(alloc, object_at(alloc, wiring, place)?)?,
    })
}
