//! What a line asks for.
ghost use Rattle.std.specs.Prelude.{◌≡◌, ◌<◌, ◌^◌, IfOk, IfErr, length, codes, false, option_and_then, unwrap_or};
ghost use Rattle.serde_json.specs.Find.{get, as_bool};
ghost use Rattle.serde_json.specs.View.{view};
ghost use Rattle.live_text.specs.Request.{is_report, ReadsRequest, IsRequestFault};

use code_units::Text;
use json_shapes::{Misfit, ShapeFault, has_only, read_json};
use serde_json::Value;
use std::alloc::Global;
use thiserror::Error;
use trace_reader::{TraceItem, read_item};

/// What a line asks for.
#[derive(Drop)]
pub enum Request {
    /// An item of a trace of version 2.
    Item(TraceItem),
    /// The report of the items so far.
    Report,
}

/// Why a line asks for nothing.
#[derive(Clone, Copy, PartialEq, Eq, Debug, Drop, Error)]
pub enum RequestFault {
    /// Its bytes are no JSON.
    #[error("no JSON")]
    NotJson,
    /// The value is neither an item nor the request for a report.
    #[error("out of shape")]
    BadShape,
    /// There was no memory for the request.
    #[error("out of memory")]
    Memory,
}

fn is_set(value: &Value) -> bool
    ensures { result ≡ unwrap_or (option_and_then as_bool (get (codes "report") (view value.now))) false }
{
    value
        .get("report")
        .and_then(Value::as_bool)
        .unwrap_or(false)
}

fn is_report(value: &Value) -> bool
    ensures { result ≡ is_report (view value.now) }
{
    has_only(value, &["report"]) && is_set(value)
}

/// Reads what a line asks for, of slots of these names (docs/LIVE.md, "Requests"): an item of a trace of
/// version 2, or `{"report":true}`. `NotJson` comes exactly where the bytes are no JSON, and `BadShape`
/// where their value is neither.
#[tactic(auto, using(crate::proofs::OneRequest::reads_report, crate::proofs::OneRequest::reads_item, crate::proofs::OneRequest::bad_request))]
pub fn read_request(alloc: Global, bytes: &[u8], names: &[Text]) -> Result<Request, RequestFault>
    requires { length names.now < 2 ^ 32 }
    ensures ok { IfOk result (ReadsRequest bytes.now names.now) }
    ensures err { IfErr result (IsRequestFault bytes.now names.now) }
{
    let value = match read_json(alloc, bytes) {
        Ok(value) => value,
        Err(ShapeFault::NotJson) => return Err(RequestFault::NotJson),
        Err(_) => return Err(RequestFault::Memory),
    };
    if is_report(&value) {
        return Ok(Request::Report);
    }
    match read_item(alloc, 2, &value, names) {
        Ok(item) => Ok(Request::Item(item)),
        Err(Misfit::Shape) => Err(RequestFault::BadShape),
        Err(Misfit::Memory) => Err(RequestFault::Memory),
    }
}
