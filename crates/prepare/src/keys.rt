// The operators by their names, and what their keys take: those that every operator has, and its own, which it knows itself.
ghost use Rattle.std.specs.Prelude.{◌≡◌, ◌++◌};
ghost use Rattle.rules.specs.Operators.Keys.{kind_in};
ghost use Rattle.rules.specs.Operators.Table.{name_of};
ghost use Rattle.rules.specs.Pipeline.Keys.{every_key, own_keys};

use rules::{Kind, Name};
use text::is_same;

// "one of the five", or not
// Stays: tried as a `match` on byte strings (with the keys of `adapt`): each byte makes an arm of its own, of which the check tells the
// length alone, and the proof does not close.
#[tactic(auto, unfolding(rules::specs::Operators::Table::names, rules::specs::Operators::Table::name_in, rules::specs::Operators::Table::name_of, rules::specs::Text::Ascii::ascii))]
pub fn name_of(word: &[u8]) -> Option<Name>
    ensures { result ≡ name_of word.now }
{
    if is_same(word, b"push") {
        return Some(Name::Push);
    }
    if is_same(word, b"pop") {
        return Some(Name::Pop);
    }
    if is_same(word, b"stack") {
        return Some(Name::Stack);
    }
    if is_same(word, b"axisswap") {
        return Some(Name::Axisswap);
    }
    if is_same(word, b"adapt") {
        return Some(Name::Adapt);
    }
    None
}

// The name, and "Every operator also takes `inv`, `omit_fwd`, `omit_inv`."
#[tactic(auto, unfolding(rules::specs::Operators::Keys::kind_in, rules::specs::Operators::Keys::flag, rules::specs::Operators::Keys::worded, rules::specs::Pipeline::Keys::every_key, rules::specs::Text::Ascii::ascii))]
fn every_kind(key: &[u8]) -> Option<Kind>
    ensures { result ≡ kind_in every_key key.now }
{
    if is_same(key, b"_name") {
        return Some(Kind::Word);
    }
    let is_mark = is_same(key, b"inv") || is_same(key, b"omit_fwd") || is_same(key, b"omit_inv");
    is_mark.then_some(Kind::Flag)
}

// What a key of its own takes.
fn own_kind(name: Name, key: &[u8]) -> Option<Kind>
    ensures { result ≡ kind_in (own_keys name) key.now }
{
    match name {
        Name::Push => pushpop::kind_of(key),
        Name::Pop => pushpop::kind_of(key),
        Name::Stack => stack::kind_of(key),
        Name::Axisswap => axisswap::kind_of(key),
        Name::Adapt => adapt::kind_of(key),
    }
}

// What a key takes, if the operator has it.
pub fn kind_of(name: Name, key: &[u8]) -> Option<Kind>
    ensures { result ≡ kind_in (every_key ++ own_keys name) key.now }
{
    match every_kind(key) {
        Some(kind) => Some(kind),
        None => own_kind(name, key),
    }
}
