// Its key: `order`, which takes a series.
ghost use Rattle.std.specs.Prelude.{◌≡◌};
ghost use Rattle.rules.specs.Operators.Keys.{kind_in};
ghost use Rattle.rules.specs.Operators.Axisswap.{order_keys};

use rules::Kind;
use text::is_same;

// What a key takes, if it is the one.
#[tactic(auto, unfolding(rules::specs::Operators::Keys::kind_in, rules::specs::Operators::Keys::numbered, rules::specs::Text::Ascii::ascii))]
pub fn kind_of(key: &[u8]) -> Option<Kind>
    ensures { result ≡ kind_in order_keys key.now }
{
    is_same(key, b"order").then_some(Kind::Series)
}
