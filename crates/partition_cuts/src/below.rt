//! The byte string just below another.

ghost use Rattle.std.specs.Prelude.{◌≡◌};
ghost use Rattle.partition_map.specs.Map.{just_below};

/// Makes a key the byte string just below it.
pub fn just_below(key: &mut Vec<u8>)
    ensures { key.new.items ≡ just_below key.old.items }
{
    let n = key.len();
    for back in 0..n {
        let at = n - 1 - back;
        if key[at] > 0 {
            key[at] -= 1;
            return;
        }
        key[at] = 0xFF;
    }
}
