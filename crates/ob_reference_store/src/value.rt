//! Values as the reference keeps them.

ghost use Rattle.std.specs.Prelude.{◌≡◌, [], MatchOption};
ghost use Rattle.ob_mean.specs.Values as spec;
ghost use Rattle.ob_reference_store.specs.Kept.{value_in, walk, walk_set};

use ob_base::SharedItems;
use ob_mean::TypeName;

/// A value of basic type, what a parameter names, or a row of values.
#[derive(Drop)]
pub enum Value {
    Cell(i32),
    /// The place as a path from the whole store.
    Named(Vec<usize>),
    /// The same, and the record type that is told with it: its name, that of its base, and so on.
    Typed(Vec<usize>, SharedItems<TypeName>),
    Open(Vec<usize>, usize),
    Nothing,
    Beside(Box<Value>, Box<Value>),
}

/// The record type that is told with a name.
pub(crate) fn told(value: &Value) -> Option<&SharedItems<TypeName>>
    ensures { MatchOption result (spec.told (value_in value.now) ≡ []) (λ type. spec.told (value_in value.now) ≡ type.now) }
{
    match value {
        Value::Typed(_, type_names) => Some(type_names),
        _ => None,
    }
}

/// A value of a row.
pub(crate) fn item(row: &Value, index: usize) -> Option<&Value>
    ensures { MatchOption result (spec.item (value_in row.now) index ≡ spec.Nothing) (λ v. value_in v.now ≡ spec.item (value_in row.now) index) }
{
    match row {
        Value::Beside(first, rest) => {
            if index == 0 {
                Some(first)
            } else {
                item(rest, index - 1)
            }
        }
        _ => None,
    }
}

/// What stands at a place.
#[tactic(auto, using(crate::proofs::Paths::walk_nothing))]
pub(crate) fn at<'a>(whole: &'a Value, path: &[usize]) -> Option<&'a Value>
    ensures { MatchOption result (walk (value_in whole.now) path.now ≡ spec.Nothing) (λ v. value_in v.now ≡ walk (value_in whole.now) path.now) }
{
    match path {
        [] => Some(whole),
        [index, rest @ ..] => match item(whole, *index) {
            Some(part) => at(part, rest),
            None => None,
        },
    }
}

/// Sets what stands at a place.
#[cycle(setting)]
pub(crate) fn set(whole: &mut Value, path: &[usize], new: Value)
    ensures { value_in whole.new ≡ walk_set (value_in whole.old) path.now (value_in new) }
{
    match path {
        [] => *whole = new,
        [index, rest @ ..] => set_item(whole, *index, rest, new),
    }
}

/// Sets what stands at a place in an item of a row.
#[cycle(setting)]
fn set_item(row: &mut Value, index: usize, path: &[usize], new: Value)
    ensures { value_in row.new ≡ spec.with_item (value_in row.old) index (walk_set (spec.item (value_in row.old) index) path.now (value_in new)) }
{
    match row {
        Value::Beside(first, rest) => {
            if index == 0 {
                set(first, path, new);
            } else {
                set_item(rest, index - 1, path, new);
            }
        }
        _ => {}
    }
}
