//! Laws of own states.
ghost use Rattle.meaning_laws.specs.NumberLaws.{NumberLaws};
ghost use Rattle.meaning_laws.specs.OrdinaryLaws.{JsonStateLaws, OrdinaryLaws};
ghost use Rattle.meaning_laws.specs.ThereLaws.{ChainLaws, LengthLaws, ThereLaws, WayLaws};

/// Each object and node that a value, a scope, a Bunch, a handler or a timer names was born, and each
/// prototype is older than the object that has it.
#[tactic(auto, using(crate::proofs::LawsHold::there_laws))]
pub fn numbers_stand()
    ensures { ThereLaws }
{}

/// No walk along prototypes meets its bound: with a greater one it comes to the same.
#[tactic(auto, using(crate::proofs::LawsHold::chain_laws))]
pub fn chains_end()
    ensures { ChainLaws }
{}

/// No tree of a widget's page is higher than the limit, so no way up from a node meets its bound.
#[tactic(auto, using(crate::proofs::LawsHold::way_laws))]
pub fn ways_end()
    ensures { WayLaws }
{}

/// No array is longer than the largest length, 2^32 - 1, also after `splice`, which tests none: no object has more
/// names than slots were paid.
#[tactic(auto, using(crate::proofs::LawsHold::length_laws))]
pub fn lengths_hold()
    ensures { LengthLaws }
{}

/// Each text that a widget comes to, and each name of its objects, is of 16-bit units and shorter than 2^53, where
/// those of its scripts, its subtree and its events are; and each number is within the numbers.
#[tactic(auto, using(crate::proofs::LawsHold::ordinary_laws))]
pub fn values_are_ordinary()
    ensures { OrdinaryLaws }
{}

/// In such states the laws of JSON hold with no premise on what they have, but that on lone surrogates in names.
#[tactic(auto, using(crate::proofs::LawsHold::json_state_laws))]
pub fn json_of_states()
    ensures { JsonStateLaws }
{}

/// `+e`, `-e`, `e - e`, `e * e`, `e / e`, `e % e`, a step and a number end with a number or NaN where they
/// end with a value: so the subscripts that the rules let through beside strings name a number.
#[tactic(auto, using(crate::proofs::Numeric::number_laws))]
pub fn numeric_forms()
    ensures { NumberLaws }
{}
