//! The JSON words of a script.
ghost use Rattle.std.specs.Str.{chars};
ghost use Rattle.serde_json.specs.View.{view};
ghost use Rattle.ng_base.specs.Meets.{Gives};
ghost use Rattle.ng_script.specs.Free.{is_want};
ghost use Rattle.ng_script.specs.Json.{json_of, text_of, object_of, list_of};
ghost use Rattle.ng_script.specs.Parts.{is_over};

use crate::fault::ScriptKind;
use crate::parts::is_over;
use ng_base::fault::Memory;
use ng_base::txt::Txt;
use serde_json::{Map, Value as Json};
use std::alloc::Global;

/// The value of JSON.
fn read_json(alloc: Global, text: &str) -> Result<Json, ScriptKind>
    ensures { Gives is_want view (json_of (chars text.now)) result }
{
    match Json::from_str(alloc, text) {
        Ok(value) => Ok(value),
        Err(error) => {
            if error.is_memory() {
                Err(ScriptKind::Memory(Memory::Refused))
            } else {
                Err(ScriptKind::BadArgument)
            }
        }
    }
}

/// The characters of a JSON text.
pub fn read_text(alloc: Global, text: &str) -> Result<Txt, ScriptKind>
    ensures { Gives is_want (λ t. t) (text_of (chars text.now)) result }
{
    match read_json(alloc, text)? {
        Json::String(value) => Ok(Txt::from_str(alloc, value.as_str())?),
        _ => Err(ScriptKind::BadArgument),
    }
}

/// A JSON object, or the empty one where nothing stands.
pub fn read_object(alloc: Global, text: &str) -> Result<Json, ScriptKind>
    ensures { Gives is_want view (object_of (chars text.now)) result }
{
    if is_over(text) {
        return Ok(Json::Object(Map::new(alloc)));
    }
    let value = read_json(alloc, text)?;
    if value.is_object() {
        Ok(value)
    } else {
        Err(ScriptKind::BadArgument)
    }
}

/// A JSON list, or the empty one where nothing stands.
pub fn read_list(alloc: Global, text: &str) -> Result<Json, ScriptKind>
    ensures { Gives is_want view (list_of (chars text.now)) result }
{
    if is_over(text) {
        return Ok(Json::Array(Vec::new(alloc)));
    }
    let value = read_json(alloc, text)?;
    if value.is_array() {
        Ok(value)
    } else {
        Err(ScriptKind::BadArgument)
    }
}
