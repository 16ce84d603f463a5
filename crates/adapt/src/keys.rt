// Its keys: `from` and `to`, which take a word each.
ghost use Rattle.std.specs.Prelude.{◌≡◌};
ghost use Rattle.rules.specs.Operators.Keys.{kind_in};
ghost use Rattle.rules.specs.Operators.Adapt.{word_keys};

use rules::Kind;
use text::is_same;

// What a key takes, if it is one of them.
#[tactic(auto, unfolding(rules::specs::Operators::Keys::kind_in, rules::specs::Operators::Keys::worded, rules::specs::Text::Ascii::ascii))]
pub fn kind_of(key: &[u8]) -> Option<Kind>
    ensures { result ≡ kind_in word_keys key.now }
{
    let is_word = is_same(key, b"from") || is_same(key, b"to");
    is_word.then_some(Kind::Word)
}
