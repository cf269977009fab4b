//! The keys under which a node stands in the indexes.

ghost use Rattle.std.specs.Prelude.{◌≡◌, ◌||◌, OnOk, IfOk};
ghost use Rattle.std.specs.List.{fold};
ghost use Rattle.std.specs.Option.{option_copied};
ghost use Rattle.cy_index.specs.declared.keys.Key.{Key};
ghost use Rattle.cy_index.specs.Index.{is_pair};
ghost use Rattle.cy_index.specs.internal.Hashing.{prop_input};
ghost use Rattle.cy_index.specs.internal.Under.{among, by_label, by_value, is_here, is_same, is_key_of_label, is_key_of_value, is_key_of};

use cy_graph::{Labels, Props};
use cy_values::{Duplicate, Fault, Text, Value};
use std::alloc::Global;
use std::hash::{Hash, Hasher};

/// A label and a key of properties for which there is an index.
#[derive(Debug, Drop)]
pub struct Pair {
    pub label: Text,
    pub key: Text,
}

impl Pair {
    /// Whether this is the pair of a label and a key.
    pub(crate) fn is_for(&self, label: &str, key: &str) -> bool
        ensures { result ≡ is_pair label.now key.now self.now }
    {
        self.label.as_str() == label && self.key.as_str() == key
    }
}

// One of the chosen pairs, and its place among them.
#[derive(Clone, Copy)]
struct PlacedPair<'a> {
    place: usize,
    pair: &'a Pair,
}

/// What a node is looked up by.
#[derive(Debug, Drop, PartialEq, Eq)]
pub(crate) enum Key {
    /// One of its labels.
    Label(Text),
    /// The value of its property, in the index with this place among the chosen ones.
    Prop(usize, Value),
}

// A key is hashed by what it holds alone, in few writes: most are labels and integers.
impl Hash for Key {
    ghost use Rattle.cy_index.specs.internal.Hashing.{key_input, keys_alike};

    ghost hash_input = { key_input };

    ghost respects_eq = { keys_alike };

    fn hash<H: Hasher>(&self, state: &mut H) {
        match self {
            Key::Label(label) => label.hash(state),
            Key::Prop(place, value) => hash_prop(*place, value, state),
        }
    }
}

// What sets a place apart from the numbers of 64 bits.
const PLACES: u128 = 1 << 64;

// Hashes the value in the index at a place.
fn hash_prop<H: Hasher>(place: usize, value: &Value, state: &mut H)
    ensures { state.new ≡ fold H.write state.old (prop_input place value.now) }
{
    match value {
        Value::Int(number) => {
            let both = (place as u128) * PLACES + number.cast_unsigned() as u128;
            both.hash(state);
        }
        Value::Text(text) => {
            place.hash(state);
            text.hash(state);
        }
        Value::List(_) | Value::Bool(_) | Value::Null => {
            place.hash(state);
            value.hash(state);
        }
    }
}

/// Adds the keys under which a label stands, at a node with these properties: itself, and the values in the indexes of
/// the label. Fails only when out of memory.
pub(crate) fn push_label_keys(
    alloc: Global,
    keys: &mut Vec<Key>,
    chosen: &[Pair],
    label: &Text,
    props: &Props,
) -> Result<(), Fault>
    ensures { OnOk result ((k : Key) → among k keys.new.items ≡ (among k keys.old.items || is_key_of_label chosen.now label.now props.now k)) }
{
    keys.push(Key::Label(label.copy(alloc)?))?;
    for (place, pair) in chosen.iter().enumerate() {
        let placed = PlacedPair { place, pair };
        push_key_by_label(alloc, keys, &placed, label.as_str(), props)?;
    }
    Ok(())
}

// Adds the key of a value in the index at this place, if there is a value.
fn push_prop_key(
    alloc: Global,
    keys: &mut Vec<Key>,
    place: usize,
    value: Option<&Value>,
) -> Result<(), Fault>
    ensures { OnOk result ((k : Key) → among k keys.new.items ≡ (among k keys.old.items || is_here place (λ v. is_same v (option_copied value.entry)) k)) }
{
    match value {
        None => Ok(()),
        Some(value) => Ok(keys.push(Key::Prop(place, value.copy(alloc)?))?),
    }
}

// Adds the key of the value at a node with these properties, if the pair at this place has the label.
fn push_key_by_label(
    alloc: Global,
    keys: &mut Vec<Key>,
    placed: &PlacedPair<'_>,
    label: &str,
    props: &Props,
) -> Result<(), Fault>
    ensures { OnOk result ((k : Key) → among k keys.new.items ≡ (among k keys.old.items || is_here placed.now.place (λ v. by_label label.now props.now v placed.now.pair.now) k)) }
{
    let PlacedPair { place, pair } = *placed;
    if pair.label.as_str() == label {
        push_prop_key(alloc, keys, place, props.get(pair.key.as_str()))
    } else {
        Ok(())
    }
}

// Adds the key of a value at a node with these labels, if the pair at this place has the key and one of the labels.
fn push_key_by_value(
    alloc: Global,
    keys: &mut Vec<Key>,
    placed: &PlacedPair<'_>,
    labels: &Labels,
    key: &str,
    value: Option<&Value>,
) -> Result<(), Fault>
    ensures { OnOk result ((k : Key) → among k keys.new.items ≡ (among k keys.old.items || is_here placed.now.place (λ v. by_value labels.now key.now (option_copied value.entry) v placed.now.pair.now) k)) }
{
    let PlacedPair { place, pair } = *placed;
    let meant = pair.key.as_str() == key && labels.get(pair.label.as_str()).is_some();
    if meant {
        push_prop_key(alloc, keys, place, value)
    } else {
        Ok(())
    }
}

/// The keys under which a label stands, at a node with these properties, as `push_label_keys` gives them.
pub(crate) fn label_keys(
    alloc: Global,
    chosen: &[Pair],
    label: &Text,
    props: &Props,
) -> Result<Vec<Key>, Fault>
    ensures { IfOk result (λ keys. (k : Key) → among k keys.items ≡ is_key_of_label chosen.now label.now props.now k) }
{
    let mut keys = Vec::new(alloc);
    push_label_keys(alloc, &mut keys, chosen, label, props)?;
    Ok(keys)
}

/// The keys under which a node with these labels and properties stands. Fails only when out of memory.
pub(crate) fn node_keys(
    alloc: Global,
    chosen: &[Pair],
    labels: &Labels,
    props: &Props,
) -> Result<Vec<Key>, Fault>
    ensures { IfOk result (λ keys. (k : Key) → among k keys.items ≡ is_key_of chosen.now labels.now props.now k) }
{
    let mut keys = Vec::new(alloc);
    for (label, _) in labels.entries() {
        push_label_keys(alloc, &mut keys, chosen, label, props)?;
    }
    Ok(keys)
}

/// The keys under which the value of a property stands, at a node with these labels. Fails only when out of memory.
pub(crate) fn value_keys(
    alloc: Global,
    chosen: &[Pair],
    labels: &Labels,
    key: &str,
    value: Option<&Value>,
) -> Result<Vec<Key>, Fault>
    ensures { IfOk result (λ keys. (k : Key) → among k keys.items ≡ is_key_of_value chosen.now labels.now key.now (option_copied value.entry) k) }
{
    let mut keys = Vec::new(alloc);
    for (place, pair) in chosen.iter().enumerate() {
        let placed = PlacedPair { place, pair };
        push_key_by_value(alloc, &mut keys, &placed, labels, key, value)?;
    }
    Ok(keys)
}
