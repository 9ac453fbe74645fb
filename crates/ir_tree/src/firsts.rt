// Maps by name, in which the first value of a name stays.
ghost use Rattle.std.specs.Prelude.{◌≡◌, true, false, Some, is_none, IfOk, OnErr, OnOk};
ghost use Rattle.indexmap.specs.IndexMap.{get, IsUnchanged, Updates};
ghost use Rattle.ir_tree.specs.Names.{same};

use crate::name::Name;
use indexmap::IndexMap;
use indexmap::map::Entry;
use pgo_base::NoMemory;

/// Gives a name its value, unless it has one. Answers whether the name is new. It is one look-up.
pub(crate) fn put_first<V: Drop>(
    map: &mut IndexMap<Name, V>,
    name: Name,
    value: V,
) -> Result<bool, NoMemory>
    ensures fresh { IfOk result (λ fresh. fresh ≡ is_none (get same map.old name)) }
    ensures put { IfOk result (λ fresh. fresh ≡ true → Updates same map.old map.new name (Some value)) }
    ensures kept { IfOk result (λ fresh. fresh ≡ false → IsUnchanged map.old map.new) }
    ensures refused { OnErr result (IsUnchanged map.old map.new) }
{
    match map.entry(name)? {
        Entry::Occupied(_) => Ok(false),
        Entry::Vacant(slot) => {
            slot.insert(value);
            Ok(true)
        }
    }
}
