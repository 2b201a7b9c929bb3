ghost use Rattle.std.specs.Prelude.{◌≡◌, ◌++◌, ◌∷◌, [], map, string_bytes, OnOk, OnErr};

use sci_base::NoMemory;
use std::alloc::Global;

/// Puts a name at the end of those that were asked for.
pub fn remember(alloc: Global, asked: &mut Vec<String>, name: &str) -> Result<(), NoMemory>
    ensures added { OnOk result (map string_bytes asked.new.items ≡ map string_bytes asked.old.items ++ name.now ∷ []) }
    ensures kept { OnErr result (map string_bytes asked.new.items ≡ map string_bytes asked.old.items) }
{
    let Ok(kept) = String::from_str(alloc, name) else {
        return Err(NoMemory);
    };
    if asked.push(kept).is_err() {
        return Err(NoMemory);
    }
    Ok(())
}
