//! Names and literals.
ghost use Rattle.std.specs.Prelude.{◌≡◌, ℕ, List, [], IfOk};
ghost use Rattle.code_units.specs.Whole.{number_in};
ghost use Rattle.js_tree.specs.Plain as node;
ghost use Rattle.store_cells.specs.Cells.{PlainCell};
ghost use Rattle.widget_meaning.specs.Expressions as expressions;
ghost use Rattle.js_image.specs.Image.{seen};
ghost use Rattle.js_image.specs.Held.{IsConfined, IsFine};
ghost use Rattle.js_names.specs.Code.{trees_of};
ghost use Rattle.js_flow.specs.Fine.{IsPlace};
ghost use Rattle.js_flow.specs.Views.{place_of};
ghost use Rattle.js_direct.specs.Comes.{Comes};
ghost use Rattle.js_direct.specs.declared.run.Run.{Run};

use crate::run::{Ended, Here, set_value, share_to};
use code_units::{Memory, Text, WholeRead};
use js_image::variable_at;
use js_tree::{Numeral, Word};
use object_store::{Number, Store, Value};

/// The value of a name; the place owns nothing.
#[inline(always)]
pub(crate) fn name_on(
    here: &Here,
    store: &Store,
    name: &Text,
    out: &mut Value,
) -> Result<Ended, Memory>
    requires confined { IsConfined (trees_of here.now.site.now.codes.now.items) here.now.site.now.widget store.now }
    requires place { IsPlace (trees_of here.now.site.now.codes.now.items) here.now.site.now.widget store.now.cells
        here.now.at }
    ensures comes { let F = trees_of here.now.site.now.codes.now.items in let w = here.now.site.now.widget in
        IfOk result (λ how. (run : Run) → run.waits.items ≡ [] → Comes F w store.now store.now 30
        (expressions.expression (node.Name name.now) (place_of w store.now.cells here.now.at)) run run how out.new) }
{
    share_to(variable_at(store, here.at.scope, name), out)?;
    Ok(Ended::Is)
}

/// The value of a number; the place owns nothing.
#[inline(always)]
pub(crate) fn number_on(
    here: &Here,
    store: &Store,
    numeral: &Numeral,
    out: &mut Value,
) -> Result<Ended, Memory>
    ensures comes { let F = trees_of here.now.site.now.codes.now.items in let w = here.now.site.now.widget in
        IfOk result (λ how. (run : Run) → run.waits.items ≡ [] → Comes F w store.now store.now 30
        (expressions.expression (node.Num numeral.now) (place_of w store.now.cells here.now.at)) run run how out.new) }
{
    set_value(out, number(numeral));
    Ok(Ended::Is)
}

/// The value of a text.
pub(crate) fn text_on(
    here: &Here,
    store: &Store,
    text: &Text,
    out: &mut Value,
) -> Result<Ended, Memory>
    ensures comes { let F = trees_of here.now.site.now.codes.now.items in let w = here.now.site.now.widget in
        IfOk result (λ how. (run : Run) → run.waits.items ≡ [] → Comes F w store.now store.now 30
        (expressions.expression (node.Str text.now) (place_of w store.now.cells here.now.at)) run run how out.new) }
{
    *out = Value::Text(text.share()?);
    Ok(Ended::Is)
}

/// The value of a word.
pub(crate) fn word_on(
    here: &Here,
    store: &Store,
    word: Word,
    out: &mut Value,
) -> Result<Ended, Memory>
    ensures comes { let F = trees_of here.now.site.now.codes.now.items in let w = here.now.site.now.widget in
        IfOk result (λ how. (run : Run) → run.waits.items ≡ [] → Comes F w store.now store.now 30
        (expressions.expression (node.Constant word) (place_of w store.now.cells here.now.at)) run run how out.new) }
{
    *out = word_value(word);
    Ok(Ended::Is)
}

// The value of a number literal.
#[inline(always)]
fn number(numeral: &Numeral) -> Value
    ensures value { (w : ℕ) (cells : List PlainCell)
        → seen w cells result ≡ expressions.literal (number_in numeral.now) }
    ensures fine { (w : ℕ) (cells : List PlainCell) → IsFine w cells result }
{
    match numeral.number() {
        WholeRead::Whole(z) => Value::Num(Number::Whole(z)),
        WholeRead::NotNumber => Value::Num(Number::NaN),
        WholeRead::Left => Value::Num(Number::NaN),
    }
}

// The value of a word literal.
fn word_value(word: Word) -> Value
    ensures value { (w : ℕ) (cells : List PlainCell) → seen w cells result ≡ expressions.word_value word }
    ensures fine { (w : ℕ) (cells : List PlainCell) → IsFine w cells result }
{
    match word {
        Word::Null => Value::Null,
        Word::True => Value::Bool(true),
        Word::False => Value::Bool(false),
        Word::This => Value::Undefined,
    }
}
