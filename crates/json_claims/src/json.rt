ghost use Rattle.std.specs.Prelude.{◌≡◌, IfOk, IsErrOf};
ghost use Rattle.serde_json.specs.View.{view};
ghost use Rattle.json_claims.specs.Json.{IsJson, IsNoJson};

use crate::unread::Unread;
use serde_json::{Category, Value};
use std::alloc::Global;

/// The value of JSON bytes.
///
/// # Errors
///
/// `Nothing` only where the bytes are not UTF-8, or no JSON that `serde_json` takes.
pub fn read_json(alloc: Global, bytes: &[u8]) -> Result<Value, Unread>
    ensures value { IfOk result (λ v. IsJson bytes.now (view v)) }
    ensures nothing { IsErrOf result Unread.Nothing → IsNoJson bytes.now }
{
    match Value::from_slice(alloc, bytes) {
        Ok(value) => Ok(value),
        Err(e) if e.classify() == Category::Memory => Err(Unread::Memory),
        Err(_) => Err(Unread::Nothing),
    }
}
