//! A text read, judged by the rules of a map, printed again, and compared.

ghost use Rattle.std.specs.Prelude.{◌≡◌, IfOk, IsErrOf};
ghost use Rattle.map_text.specs.Maps.{Map};
ghost use Rattle.map_text.specs.Rules.{IsMap};
ghost use Rattle.map_text.specs.Words.{map_text};
ghost use Rattle.map_file.specs.Views.{map_of};
ghost use Rattle.map_reader.specs.declared.refusal.MapRefusal.TheVariants as refusal;

use crate::reading::read_front;
use crate::refusal::MapRefusal;
use map_file::{MapFile, is_map, maps_are_numbered, print_map};
use map_text::{map_is_read, one_whole_map};
use std::alloc::Global;

/// The map whose text a text is. It is refused as that of no map exactly where it is that of no map.
pub fn read_map(alloc: Global, text: &[u8]) -> Result<MapFile, MapRefusal>
    ensures map { IfOk result (λ map. IsMap (map_of map) × (map_text (map_of map) ≡ text.now)) }
    ensures printed { (m : Map) → IsMap m → map_text m ≡ text.now → IfOk result (λ map. map_of map ≡ m) }
    ensures not_map { IsErrOf result refusal.NotMap → (m : Map) → IsMap m → map_text m ≡ text.now → ⊥ }
{
    map_is_read();
    one_whole_map();
    maps_are_numbered();
    let Some(map) = read_front(alloc, text)? else {
        return Err(MapRefusal::NotMap);
    };
    let keeps_rules = is_map(alloc, &map)?;
    if !keeps_rules {
        return Err(MapRefusal::NotMap);
    }
    let printed = print_map(alloc, &map)?;
    if printed.as_slice() == text {
        Ok(map)
    } else {
        Err(MapRefusal::NotMap)
    }
}
