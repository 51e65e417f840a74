//! What is carried out of an answer of a room that does not know the page.
ghost use Rattle.std.specs.Prelude.{◌≡◌};
ghost use Rattle.store_natives.specs.Carried.{carried, without_fire};

use js_values::{NativeOut, Plan};

// An answer; none where fuel is wanting.
pub(crate) fn carried(out: NativeOut) -> Option<NativeOut>
    ensures { result ≡ carried out }
{
    match out {
        NativeOut::Call(plan) => Some(without_fire(plan)),
        NativeOut::OutOfFuel => None,
        out => Some(out),
    }
}

// The calls that it asks for. Such a room knows no node, and asks for handlers at none: then the last value is left.
fn without_fire(plan: Plan) -> NativeOut
    ensures { result ≡ without_fire plan }
{
    match plan {
        Plan::Fire { last, .. } => NativeOut::Value(last),
        plan => NativeOut::Call(plan),
    }
}
