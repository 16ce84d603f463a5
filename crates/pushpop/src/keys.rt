// "`push`, `pop` with flags `v_1` to `v_4`"
ghost use Rattle.std.specs.Prelude.{◌≡◌};
ghost use Rattle.rules.specs.Operators.Keys.{kind_in};
ghost use Rattle.rules.specs.Operators.PushPop.{axis_keys};

use rules::Kind;
use text::is_same;

// What a key takes, if it is one of theirs.
#[tactic(auto, unfolding(rules::specs::Operators::Keys::kind_in, rules::specs::Operators::Keys::flag, rules::specs::Operators::PushPop::axis_keys, rules::specs::Text::Ascii::ascii))]
pub fn kind_of(key: &[u8]) -> Option<Kind>
    ensures { result ≡ kind_in axis_keys key.now }
{
    let is_axis = is_same(key, b"v_1")
        || is_same(key, b"v_2")
        || is_same(key, b"v_3")
        || is_same(key, b"v_4");
    is_axis.then_some(Kind::Flag)
}
