//! Track keys, by which a repeat tells its rows apart (API: `ngRepeat`, "Tracking and Duplicates").
ghost use Rattle.std.specs.Prelude.{◌≡◌, ◌++◌, ◌∷◌, [], ◌↔◌, ◌<◌, IfOk, OnOk, OnErr, IsTrue, encode_utf8_all};
ghost use Rattle.std.specs.Str.{chars, bytes_eq};
ghost use Rattle.ng_blocks.specs.Keys.{kind_of, value_kind, number_of, value_number, text_of, value_text};
ghost use Rattle.ng_blocks.specs.SameKeys.{same_key};

use ng_base::txt::Txt;
use ng_base::value::Value;
use std::alloc::{AllocError, Global};
use std::hash::{Hash, Hasher};
use std::marker::Model;

/// What a row is known by: a primitive or an object, the place of a fresh entry, or the text of a `track by`.
#[derive(Drop)]
pub enum TrackKey {
    Prim(Value),
    Place(u32),
    Text(Txt),
}

/// Which kind of value it is.
fn value_kind(value: &Value) -> u8
    ensures { result ≡ value_kind value.now }
{
    match value {
        Value::Undefined => 0,
        Value::Null => 1,
        Value::Bool(_) => 2,
        Value::Int(n) => { if *n < 0 { 4 } else { 3 } }
        Value::Nan => 5,
        Value::Text(_) => 6,
        Value::Obj(_) => 7,
        Value::Fun(_) => 8,
    }
}

/// The number of a value that has one.
fn value_number(value: &Value) -> u64
    ensures { result ≡ value_number value.now }
{
    match value {
        Value::Bool(b) => *b as u64,
        Value::Int(n) => {
            if *n < 0 {
                (-(*n + 1)) as u64
            } else {
                *n as u64
            }
        }
        Value::Obj(o) => o.0 as u64,
        Value::Fun(f) => f.0 as u64,
        _ => 0,
    }
}

/// The text of a value that is one.
fn value_text(value: &Value) -> &str
    ensures bytes { result.now ≡ encode_utf8_all (value_text value.now) }
    ensures chars { chars result.now ≡ value_text value.now }
{
    match value {
        Value::Text(text) => text.as_str(),
        _ => "",
    }
}

impl TrackKey {
    /// Whether two keys are the same.
    pub fn same(&self, other: &TrackKey) -> bool
        ensures same { IsTrue result ↔ (self.now ≡ other.now) }
        ensures value { result ≡ same_key self.now other.now }
    {
        self.kind() == other.kind() && self.number() == other.number() && self.same_text(other)
    }

    /// A copy.
    pub fn copied(&self) -> Result<TrackKey, AllocError>
        ensures { IfOk result (λ k. k ≡ self.now) }
    {
        match self {
            TrackKey::Prim(value) => Ok(TrackKey::Prim(value.copied()?)),
            TrackKey::Place(place) => Ok(TrackKey::Place(*place)),
            TrackKey::Text(text) => Ok(TrackKey::Text(text.copied()?)),
        }
    }

    fn kind(&self) -> u8
        ensures { result ≡ kind_of self.now }
    {
        match self {
            TrackKey::Prim(value) => value_kind(value),
            TrackKey::Place(_) => 9,
            TrackKey::Text(_) => 10,
        }
    }

    fn number(&self) -> u64
        ensures { result ≡ number_of self.now }
    {
        match self {
            TrackKey::Prim(value) => value_number(value),
            TrackKey::Place(place) => *place as u64,
            TrackKey::Text(_) => 0,
        }
    }

    fn text(&self) -> &str
        ensures bytes { result.now ≡ encode_utf8_all (text_of self.now) }
        ensures chars { chars result.now ≡ text_of self.now }
    {
        match self {
            TrackKey::Prim(value) => value_text(value),
            TrackKey::Place(_) => "",
            TrackKey::Text(text) => text.as_str(),
        }
    }

    fn same_text(&self, other: &TrackKey) -> bool
        ensures { result ≡ bytes_eq (text_of self.now) (text_of other.now) }
    {
        self.text() == other.text()
    }
}

impl PartialEq for TrackKey {
    ghost use Rattle.std.specs.Cmp.{partial_equiv_from_equiv};
    ghost use Rattle.ng_blocks.specs.SameKeys.{same_key, same_key_equiv};

    ghost eq = { same_key };

    ghost laws = { partial_equiv_from_equiv same_key_equiv };

    fn eq(&self, other: &TrackKey) -> bool {
        self.same(other)
    }
}

impl Eq for TrackKey {
    ghost use Rattle.ng_blocks.specs.SameKeys.{same_key_equiv};

    ghost laws = { same_key_equiv };
}

impl Hash for TrackKey {
    ghost use Rattle.std.specs.Hash as fed;
    ghost use Rattle.std.specs.Hash.{same_Alike};
    ghost use Rattle.std.specs.Prelude.{◌++◌, encode_utf8_all};
    ghost use Rattle.ng_blocks.specs.Keys.{kind_of, number_of, text_of};
    ghost use Rattle.ng_blocks.specs.SameKeys.{same_key, same_key-Decides};

    ghost hash_input = { λ k. fed.u8 (kind_of k) ++ fed.u64 (number_of k) ++ fed.str (encode_utf8_all (text_of k)) };

    ghost respects_eq = { (same_Alike {E = same_key} (λ k. fed.u8 (kind_of k) ++ fed.u64 (number_of k) ++ fed.str (encode_utf8_all (text_of k))) same_key-Decides).fed };

    fn hash<H: Hasher>(&self, state: &mut H) {
        self.kind().hash(state);
        self.number().hash(state);
        self.text().hash(state);
    }
}

/// The track keys of rows or of entries, in order.
#[derive(Drop)]
pub struct TrackKeys {
    items: Vec<TrackKey>,
}

impl Model for TrackKeys {
    ghost use Rattle.std.specs.Prelude.{List};
    ghost use Rattle.ng_blocks.specs.declared.keys.TrackKey.{TrackKey};

    ghost Value = { List TrackKey };

    ghost view = { λ k. k.items.items };
}

impl TrackKeys {
    /// No key.
    pub fn new(alloc: Global) -> TrackKeys
        ensures { result ≡ [] }
    {
        TrackKeys {
            items: Vec::new(alloc),
        }
    }

    /// Adds a key at the end.
    pub fn push(&mut self, key: TrackKey) -> Result<(), AllocError>
        ensures ok { OnOk result (self.new ≡ self.old ++ key ∷ []) }
        ensures err { OnErr result (self.new ≡ self.old) }
    {
        self.items.push(key)?;
        Ok(())
    }

    /// All of them, in order.
    pub fn as_slice(&self) -> &[TrackKey]
        ensures { result.now ≡ self.now }
    {
        self.items.as_slice()
    }
}
