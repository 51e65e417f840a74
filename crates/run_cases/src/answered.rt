//! A call that waits for a native.
ghost use Rattle.std.specs.Prelude.{◌≡◌, IfOk, None, OnOk, false, true};
ghost use Rattle.js_tree.specs.Forest.{IsFun};
ghost use Rattle.js_names.specs.Code.{code_trees, trees_of};
ghost use Rattle.store_cells.specs.Host.{first_store};
ghost use Rattle.js_image.specs.Plans.{IsNewOf};
ghost use Rattle.js_flow.specs.Todo.{IsGoing, IsWaiting};
ghost use Rattle.run_cases.specs.Running.{IsNative, IsReady};

use adsafe_rules::Scope;
use code_units::Memory;
use js_image::{Made, make, word};
use js_names::Code;
use js_steps::{Stepped, Task, begin, raise, resume, run, step};
use js_tree::FunId;
use js_values::{Meter, NativeOut};
use keyed_names::Keys;
use object_store::{NewCell, Number, Store, Value};
use script_check::judge_script;
use std::alloc::Global;

// The script of a widget, whose function asks for one native.
const SCRIPT: &[u8] = b"ADSAFE.go(\"A_\", function (dom, lib) { ADSAFE.log(1 + 2); });";

// The fuel of a call, and the most steps up to its native.
const FUEL: u32 = 100;

/// What the native answers for which a call waits.
#[derive(Clone, Copy, Drop)]
pub enum Answer {
    /// It gives `undefined`.
    Undefined,
    /// It throws 1.
    Throw,
}

// The tree of the script, and the function that it hands over.
fn read_script(alloc: Global) -> Result<(Code, FunId), Memory>
    ensures { IfOk result (λ p. IsFun (code_trees p.0) p.1) }
{
    let scope = Scope::Go(word(alloc, b"A_")?);
    let Ok(script) = judge_script(alloc, &scope, SCRIPT) else {
        return Err(Memory);
    };
    let Some(fun) = script.fun() else {
        return Err(Memory);
    };
    let code = Code::new(alloc, script.into_tree(), Some(fun))?;
    Ok((code, fun))
}

/// Whether a call of the script's function by a caller at depth 1 comes to its native with 9 units taken, and
/// then ends by `undefined` where the native gives that, or by the 1 that the native throws.
pub fn ends_as_answered(alloc: Global, answer: Answer) -> Result<bool, Memory> {
    let (code, fun) = read_script(alloc)?;
    let codes = vec![in alloc; code]?;
    let mut store = Store::new(alloc, Keys::of_files(&[]))?;
    call(alloc, &codes, &mut store, fun, answer)
}

// The same, in a store without widgets.
fn call(
    alloc: Global,
    codes: &Vec<Code>,
    store: &mut Store,
    fun: FunId,
    answer: Answer,
) -> Result<bool, Memory>
    requires function { IsNewOf (trees_of codes.now.items) (NewCell.Function 0 fun false None) }
    requires first { store.old ≡ first_store }
{
    let cell = NewCell::Function {
        code: 0,
        fun,
        declared: false,
        scope: None,
    };
    let Made::Cell(func) = make(alloc, store, 0, cell)? else {
        return Ok(false);
    };
    let mut task = begin(alloc, 0, func, &[], 1)?;
    finish(alloc, codes, store, &mut task, answer)
}

// The same, of a task that begins.
fn finish(
    alloc: Global,
    codes: &Vec<Code>,
    store: &mut Store,
    task: &mut Task,
    answer: Answer,
) -> Result<bool, Memory>
    requires going { IsGoing task.old.control }
    requires ready { IsReady codes.now.items store.old task.old }
{
    let mut meter = Meter::new(FUEL, 0);
    if !comes_to_native(alloc, codes, store, task, &mut meter)? {
        return Ok(false);
    }
    let taken = meter.spent();
    let mut step = go_on(alloc, codes, store, task, answer)?;
    if has_gone(&step) {
        step = run(alloc, codes, store, task, &mut meter)?;
    }
    Ok(taken == 9 && is_wanted(&step, answer))
}

// Whether a task comes to a native, step by step.
fn comes_to_native(
    alloc: Global,
    codes: &Vec<Code>,
    store: &mut Store,
    task: &mut Task,
    meter: &mut Meter,
) -> Result<bool, Memory>
    requires going { IsGoing task.old.control }
    requires ready { IsReady codes.now.items store.old task.old }
    ensures waits { IfOk result (λ b. b ≡ true → IsWaiting task.new.control) }
    ensures ready { OnOk result (IsReady codes.now.items store.new task.new) }
{
    'steps: for _ in 0..FUEL {
        let step = step(alloc, codes, store, task, meter)?;
        if !has_gone(&step) {
            return Ok(is_native(&step));
        }
    }
    Ok(false)
}

// A task goes on with what its native answers.
fn go_on(
    alloc: Global,
    codes: &Vec<Code>,
    store: &mut Store,
    task: &mut Task,
    answer: Answer,
) -> Result<Stepped, Memory>
    requires waits { IsWaiting task.old.control }
    requires ready { IsReady codes.now.items store.old task.old }
    ensures going { IfOk result (λ k. k ≡ Stepped.Went → IsGoing task.new.control) }
    ensures ready { OnOk result (IsReady codes.now.items store.new task.new) }
{
    match answer {
        Answer::Undefined => {
            let out = NativeOut::Value(Value::Undefined);
            resume(alloc, codes, store, task, out)
        }
        Answer::Throw => {
            raise(task, Value::Num(Number::Whole(1)));
            Ok(Stepped::Went)
        }
    }
}

fn is_native(step: &Stepped) -> bool
    ensures { result ≡ true → IsNative step.now }
{
    matches!(step, Stepped::Native(_))
}

fn has_gone(step: &Stepped) -> bool
    ensures { result ≡ true → step.now ≡ Stepped.Went }
{
    matches!(step, Stepped::Went)
}

// Whether a call ended by what its native answered.
fn is_wanted(end: &Stepped, answer: Answer) -> bool {
    match answer {
        Answer::Undefined => matches!(end, Stepped::Done(Value::Undefined)),
        Answer::Throw => matches!(end, Stepped::Threw(Value::Num(Number::Whole(1)))),
    }
}
