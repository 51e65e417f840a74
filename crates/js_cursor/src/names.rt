//! Names, read of the tokens alone: labels, parameters, what a jump and a `for-in` begin with.
ghost use Rattle.std.specs.Prelude.{◌≡◌, ℕ, suc, ◌+◌, ◌<◌, ◌≤◌, ◌^◌, [], ◌∷◌, ◌++◌, length, MatchResult, MatchBool, OnOk, IfOk, Option};
ghost use Rattle.js_grammar.specs.declared.Sign.{Sign};
ghost use Rattle.js_grammar.specs.Grammar.{Lexeme, own_text, own_places};
ghost use Rattle.js_grammar.specs.Machine.{Wants, FirstName, NamesEnd};
ghost use Rattle.js_grammar.specs.declared.Sign.TheVariants as sign;
ghost use Rattle.js_cursor.specs.Reads.{lexeme_at, Next, IsOther, Refuses};
ghost use Rattle.js_cursor.specs.Named.{own_at, IsHead, IsOwn, IsUnlabelled, ReadsLabels, IsJump, IsNoJump, IsForIn, ReadsParams};
ghost use Rattle.js_cursor.specs.declared.refusal.Refusal.TheVariants as refusal;

use crate::refusal::Refusal;
use crate::script::Script;
use crate::steps::expect;
use code_units::{Memory, Text};
use js_grammar::Sign;

/// A function's own name, where it has one, and the place after it.
pub fn own_name(script: &Script, at: usize) -> (Option<usize>, usize)
    requires { at < length script.now }
    ensures { IsHead script.now at result.0 result.1 }
{
    match script.peek(at) {
        Sign::Name => (Some(at), at + 1),
        _ => (None, at),
    }
}

/// The places of labels before a statement, and that of the statement.
pub fn labels(script: &Script, at: usize) -> Result<(Vec<usize>, usize), Refusal>
    requires { at < length script.now }
    ensures { MatchResult result
        (λ x. ReadsLabels script.now at x.0.items x.1)
        (λ e. e ≡ refusal.Memory) }
{
    let mut labels = Vec::new(script.alloc());
    let mut place = at;
    'labels: loop {
        if is_label(script, place) {
            labels.push(place)?;
            place += 2;
        } else {
            return Ok((labels, place));
        }
    }
}

// A name and a colon are next.
fn is_label(script: &Script, at: usize) -> bool
    requires { at < length script.now }
    ensures which { MatchBool result
        (Next script.now at sign.Name × Next script.now (at + 1) sign.Colon × (at + 2 < length script.now))
        (IsUnlabelled script.now at) }
    ensures short { length script.now ≤ 2 ^ 31 }
{
    match script.peek(at) {
        Sign::Name => script.peek(at + 1) == Sign::Colon,
        _ => false,
    }
}

/// A label, where one stands there, and the semicolon.
pub fn jump_label(script: &Script, at: usize) -> Result<(Option<usize>, usize), Refusal>
    requires { at < length script.now }
    ensures { MatchResult result
        (λ x. IsJump script.now at x.0 x.1)
        (λ e. (place : ℕ) × (e ≡ refusal.Syntax place) × IsNoJump script.now at place) }
{
    match script.peek(at) {
        Sign::Semicolon => Ok((None, at + 1)),
        Sign::Name => {
            let next = expect(script, at + 1, Sign::Semicolon)?;
            Ok((Some(at), next))
        }
        _ => Err(Refusal::Syntax(at)),
    }
}

/// The variable of a `for-in` and whether `var` stands before it, where it is one.
pub fn for_in(script: &Script, at: usize) -> Option<(bool, usize)>
    requires { at < length script.now }
    ensures { IsForIn script.now at result }
{
    match script.peek(at) {
        Sign::Name if script.peek(at + 1) == Sign::In => Some((false, at)),
        Sign::Var if is_in(script, at + 1) => Some((true, at + 1)),
        _ => None,
    }
}

// A name and `in` are next.
fn is_in(script: &Script, at: usize) -> bool
    requires { at < length script.now }
    ensures { MatchBool result
        (Next script.now at sign.Name × Next script.now (at + 1) sign.In × (at + 2 < length script.now))
        ((s : Sign) × Next script.now at s × (s ≡ sign.Name → IsOther script.now (at + 1) sign.In)) }
{
    match script.peek(at) {
        Sign::Name => script.peek(at + 1) == Sign::In,
        _ => false,
    }
}

/// The names of a function: their texts, and their places after that of its own name.
#[derive(Drop)]
pub struct Parameters {
    pub texts: Vec<Text>,
    pub places: Vec<usize>,
}

// Adds a name.
fn push_name(params: &mut Parameters, script: &Script, at: usize) -> Result<(), Memory>
    requires { at + 1 < length script.now }
    ensures texts { OnOk result
        (params.new.texts.items ≡ params.old.texts.items ++ (lexeme_at script.now at).text ∷ []) }
    ensures places { OnOk result
        (params.new.places.items ≡ params.old.places.items ++ (lexeme_at script.now at).at ∷ []) }
{
    params.texts.push(script.text(at)?)?;
    params.places.push(script.place(at))?;
    Ok(())
}

/// The parameters of a function d links deep, after its bracket and with the closing one.
pub fn params(
    script: &Script,
    at: usize,
    depth: u32,
    places: Vec<usize>,
) -> Result<(Parameters, usize), Refusal>
    requires in_text { at < length script.now }
    requires shallow { suc depth ≤ 200 }
    ensures { MatchResult result
        (λ x. ReadsParams depth script.now at x.0.texts.items places.items x.0.places.items x.1)
        (λ e. (w : Lexeme) (own : Option Lexeme) →
        Refuses (λ k. Wants (FirstName (suc depth) ∷ NamesEnd depth w own ∷ k)) script.now at e) }
{
    let mut params = Parameters {
        texts: Vec::new(script.alloc()),
        places,
    };
    match script.peek(at) {
        Sign::Close => return Ok((params, at + 1)),
        Sign::Name => push_name(&mut params, script, at)?,
        _ => return Err(Refusal::Syntax(at)),
    }
    let mut place = at + 1;
    'names: loop {
        match script.peek(place) {
            Sign::Close => return Ok((params, place + 1)),
            Sign::Comma => {
                let name = place + 1;
                let next = expect(script, name, Sign::Name)?;
                push_name(&mut params, script, name)?;
                place = next;
            }
            _ => return Err(Refusal::Syntax(place)),
        }
    }
}

/// The own name's text.
pub fn name_text(script: &Script, own: Option<usize>) -> Result<Option<Text>, Memory>
    requires { IsOwn script.now own }
    ensures { IfOk result (λ name. name ≡ own_text (own_at script.now own)) }
{
    match own {
        Some(at) => Ok(Some(script.text(at)?)),
        None => Ok(None),
    }
}

/// The own name's place.
pub fn name_place(script: &Script, own: Option<usize>) -> Result<Vec<usize>, Memory>
    requires { IsOwn script.now own }
    ensures { IfOk result (λ places. places.items ≡ own_places (own_at script.now own) []) }
{
    let mut places = Vec::new(script.alloc());
    if let Some(at) = own {
        places.push(script.place(at))?;
    }
    Ok(places)
}
