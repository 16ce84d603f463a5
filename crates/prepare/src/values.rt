// The values of a step's parameters: found by their keys.
ghost use Rattle.std.specs.Prelude.{◌≡◌};
ghost use Rattle.prepare.specs.Lookup.{params_in, given, Looks};

use parameters::Parameters;

// The value of a key in a table, if it is given.
pub fn value_of<'a>(table: &Parameters<'a>, key: &[u8]) -> Option<&'a [u8]>
    ensures { Looks (params_in table.now) key.now result }
{
    for p in table.held() {
        if key == table.key(*p) {
            return Some(table.value(*p));
        }
    }
    None
}

// Is the key given?
pub fn is_given(table: &Parameters, key: &[u8]) -> bool
    ensures { result ≡ given key.now (params_in table.now) }
{
    value_of(table, key).is_some()
}
