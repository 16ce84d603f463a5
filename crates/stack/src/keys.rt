// Its keys: an action each. Those with arguments take a series, the two without a flag.
ghost use Rattle.std.specs.Prelude.{◌≡◌};
ghost use Rattle.rules.specs.Operators.Keys.{kind_in};
ghost use Rattle.rules.specs.Operators.Stack.{action_keys};

use rules::Kind;
use text::is_same;

// What a key takes, if it is one of them.
#[tactic(auto, unfolding(rules::specs::Operators::Keys::kind_in, rules::specs::Operators::Keys::flag, rules::specs::Operators::Keys::numbered, rules::specs::Operators::Stack::action_keys, rules::specs::Text::Ascii::ascii))]
pub fn kind_of(key: &[u8]) -> Option<Kind>
    ensures { result ≡ kind_in action_keys key.now }
{
    let is_series = is_same(key, b"push")
        || is_same(key, b"pop")
        || is_same(key, b"flip")
        || is_same(key, b"roll")
        || is_same(key, b"unroll");
    if is_series {
        return Some(Kind::Series);
    }
    let is_flag = is_same(key, b"swap") || is_same(key, b"drop");
    is_flag.then_some(Kind::Flag)
}
