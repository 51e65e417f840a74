//! What holds of traces.
ghost use Rattle.std.specs.Prelude.{◌≡◌, ℕ, List, map};
ghost use Rattle.trace_reader.specs.Trace.{ReadsTrace, IsTraceFault};
ghost use Rattle.trace_reader.specs.Said.{said};
ghost use Rattle.json_shapes.specs.declared.fault.ShapeFault.TheVariants as shape_fault;

use crate::item::TraceItem;
use json_shapes::ShapeFault;

/// Bytes are one trace at most, or are refused for one reason, and not both.
pub fn one_trace()
    ensures items { (bytes : List ℕ) (names : List (List ℕ)) (items others : List TraceItem) →
        ReadsTrace bytes names items → ReadsTrace bytes names others → map said items ≡ map said others }
    ensures fault { (bytes : List ℕ) (names : List (List ℕ)) (fault other : ShapeFault) →
        IsTraceFault bytes names fault → IsTraceFault bytes names other → ¬ (fault ≡ shape_fault.Memory) →
        ¬ (other ≡ shape_fault.Memory) → fault ≡ other }
    ensures refused { (bytes : List ℕ) (names : List (List ℕ)) (items : List TraceItem) (fault : ShapeFault) →
        ReadsTrace bytes names items → IsTraceFault bytes names fault → fault ≡ shape_fault.Memory }
{}
