//! The places of names by their order. This file knows no hash.

ghost use Rattle.std.specs.Prelude.{◌≤◌, length, OnOk, OnErr, IfOk};
ghost use Rattle.smt_names.specs.Internal.Order.{AreSame, HasPlaces, HasPlace};

use crate::name::Name;
use smt_faults::Memory;
use std::alloc::Global;
use std::collections::BTreeMap;

/// The places of these names.
pub(crate) fn places_of(alloc: Global, names: &[Name]) -> Result<BTreeMap<Vec<u8>, u32>, Memory>
    requires { length names.now ≤ 4294967295 }
    ensures { IfOk result (λ places. HasPlaces names.now places) }
{
    let mut places = BTreeMap::new(alloc);
    let mut next = 0;
    while next < names.len() {
        insert(alloc, &mut places, names[next].bytes(), next as u32)?;
        next += 1;
    }
    Ok(places)
}

/// Adds the place of a name.
pub(crate) fn insert(
    alloc: Global,
    places: &mut BTreeMap<Vec<u8>, u32>,
    name: &[u8],
    place: u32,
) -> Result<(), Memory>
    ensures noted { OnOk result (HasPlace name.now place places.old places.new) }
    ensures unchanged { OnErr result (AreSame places.old places.new) }
{
    let key = Vec::from_slice(alloc, name)?;
    let Ok(_) = places.insert(key, place) else {
        return Err(Memory);
    };
    Ok(())
}
