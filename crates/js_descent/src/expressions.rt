//! Expressions: each function reads one row of the grammar (ECMA-262 3rd edition, section 11).
//! Its contract says, for whatever is to come after the row, how the grammar's machine goes on.
ghost use Rattle.std.specs.Prelude.{◌≡◌, ◌≢◌, ℕ, ◌+◌, ◌<◌, ◌≤◌, ◌^◌, List, [], ◌∷◌, length, Some, None, MatchResult};
ghost use Rattle.js_tree.specs.Plain.{Expr as PlainExpr, ExprAt, Properties};
ghost use Rattle.js_tree.specs.Forest.{Forest, size, IsExpr, expr_at, AreExprParts, plain_expr, plain_form};
ghost use Rattle.js_tree.specs.Trees.{trees};
ghost use Rattle.js_grammar.specs.declared.Infix.{Infix};
ghost use Rattle.js_grammar.specs.Tables.{infix_of, level_of, prefix_of, prefixed, joined as joined_form, assign_of};
ghost use Rattle.js_grammar.specs.Grammar.{Lexeme};
ghost use Rattle.js_grammar.specs.Machine.{Frame, Wants, Gives, PrimaryAt, UnaryAt, DotName, ItemsAt, FirstKey, NextKey, ObjectEnd, Tail, NewTail, Target, Rest, Right, Choice, Commas, expr, whole as whole_frames};
ghost use Rattle.js_grammar.specs.declared.Sign.TheVariants as sign;
ghost use Rattle.js_cursor.specs.Reads.{lexeme_at, Next, Refuses, MadeExpr, IsNext};
ghost use Rattle.js_descent.specs.Rows.{IsReady, ReadsExpr};
ghost use Rattle.js_descent.specs.Forms.{GoesOn, IsTail, ReadsOperand, ReadsOperandOf, ReadsProperty, ReadsKeys};
ghost use Rattle.js_descent.specs.Walks.{ReadsItems};

use crate::statements::code;
use code_units::Text;
use js_cursor::key::key;
use js_cursor::names::own_name;
use js_cursor::operators::{assigning, infix_below, level, postfix, prefix};
use js_cursor::refusal::Refusal;
use js_cursor::script::Script;
use js_cursor::steps::{deeper, expect};
use js_grammar::{Infix, Prefix, Sign};
use js_tree::{AssignOp, Expr, ExprId, Numeral, StepOp, Tree, Word};

// Adds an expression with these names; `next` is the place after it.
fn add(
    tree: &mut Tree,
    node: Expr,
    at: usize,
    names: Vec<usize>,
    next: usize,
) -> Result<(ExprId, usize), Refusal>
    requires parts { AreExprParts (trees tree.old) node }
    requires room { size (trees tree.old) < 2 ^ 31 }
    ensures { MadeExpr (trees tree.old) (trees tree.new) (plain_expr (trees tree.old) node at names.items)
        next result }
{
    let id = tree.add_expr(node, at, names)?;
    Ok((id, next))
}

// Adds an expression without names.
fn add_plain(
    script: &Script,
    tree: &mut Tree,
    node: Expr,
    at: usize,
    next: usize,
) -> Result<(ExprId, usize), Refusal>
    requires parts { AreExprParts (trees tree.old) node }
    requires room { size (trees tree.old) < 2 ^ 31 }
    ensures { MadeExpr (trees tree.old) (trees tree.new) (plain_expr (trees tree.old) node at []) next result }
{
    add(tree, node, at, Vec::new(script.alloc()), next)
}

// Adds an expression of one token.
fn leaf(script: &Script, tree: &mut Tree, node: Expr, at: usize) -> Result<(ExprId, usize), Refusal>
    requires in_text { at + 1 < length script.now }
    requires short { length script.now ≤ 2 ^ 31 }
    requires parts { AreExprParts (trees tree.old) node }
    requires room { size (trees tree.old) < 2 ^ 31 }
    ensures { MadeExpr (trees tree.old) (trees tree.new)
        (ExprAt (lexeme_at script.now at).at [] (plain_form (trees tree.old) node)) (at + 1) result }
{
    add_plain(script, tree, node, script.place(at), at + 1)
}

// A property behind its dot.
fn dot(
    script: &Script,
    tree: &mut Tree,
    left: ExprId,
    at: usize,
    depth: u32,
) -> Result<(ExprId, usize), Refusal>
    requires ready { IsReady script.now at depth (trees tree.old) }
    requires left { IsExpr (trees tree.old) left }
    ensures { ReadsExpr (λ k. Wants (DotName depth (expr_at (trees tree.old) left) ∷ k)) (λ k. k)
        script.now at (trees tree.old) (trees tree.new) result }
{
    let next = expect(script, at, Sign::Name)?;
    let text = script.text(at)?;
    let mut names = Vec::new(script.alloc());
    names.push(script.place(at))?;
    let place = tree.expr_at(left);
    add(tree, Expr::Dot(left, text), place, names, next)
}

// The step behind a left-hand form, where one is there; no assignment is.
fn stepped(
    script: &Script,
    tree: &mut Tree,
    left: ExprId,
    at: usize,
    depth: u32,
) -> Result<(ExprId, usize), Refusal>
    requires ready { IsReady script.now at depth (trees tree.old) }
    requires left { IsExpr (trees tree.old) left }
    requires unassigned { IsNext script.now at (λ s. assign_of s ≡ None) }
    ensures { GoesOn (λ k. Gives (expr_at (trees tree.old) left) (Target depth ∷ k)) (λ k. k)
        script.now at (trees tree.old) (trees tree.new) result }
{
    match postfix(script.peek(at)) {
        Some(operator) => {
            let place = tree.expr_at(left);
            add_plain(script, tree, Expr::Step(operator, left), place, at + 1)
        }
        None => Ok((left, at)),
    }
}

// The node of a prefix operator.
fn prefix_node(operator: Prefix, operand: ExprId) -> Expr
    ensures form { (f : Forest) → plain_form f result ≡ prefixed operator (expr_at f operand) }
    ensures parts { (f : Forest) → IsExpr f operand → AreExprParts f result }
{
    match operator {
        Prefix::Unary(operator) => Expr::Unary(operator, operand),
        Prefix::Step(operator) => Expr::Step(operator, operand),
    }
}

// The node of an operator between two operands.
fn infix_node(operator: Infix, left: ExprId, right: ExprId) -> Expr
    ensures form { (f : Forest) → plain_form f result ≡ joined_form operator (expr_at f left) (expr_at f right) }
    ensures parts { (f : Forest) → IsExpr f left → IsExpr f right → AreExprParts f result }
{
    match operator {
        Infix::Binary(operator) => Expr::Binary(operator, left, right),
        Infix::And => Expr::And(left, right),
        Infix::Or => Expr::Or(left, right),
    }
}

#[cycle(parser)]
fn primary(
    script: &Script,
    tree: &mut Tree,
    at: usize,
    depth: u32,
) -> Result<(ExprId, usize), Refusal>
    requires { IsReady script.now at depth (trees tree.old) }
    ensures { ReadsExpr (λ k. Wants (PrimaryAt depth ∷ k)) (λ k. k)
        script.now at (trees tree.old) (trees tree.new) result }
{
    match script.peek(at) {
        Sign::Name => leaf(script, tree, Expr::Name(script.text(at)?), at),
        Sign::Number => leaf(script, tree, Expr::Num(Numeral::new(script.text(at)?)), at),
        Sign::Str => leaf(script, tree, Expr::Str(script.text(at)?), at),
        Sign::This => leaf(script, tree, Expr::Word(Word::This), at),
        Sign::Null => leaf(script, tree, Expr::Word(Word::Null), at),
        Sign::True => leaf(script, tree, Expr::Word(Word::True), at),
        Sign::False => leaf(script, tree, Expr::Word(Word::False), at),
        Sign::Open => paren(script, tree, at, depth),
        Sign::OpenSquare => array(script, tree, at, depth),
        Sign::OpenBrace => object(script, tree, at, depth),
        Sign::Function => function(script, tree, at, depth),
        _ => Err(Refusal::Syntax(at)),
    }
}

#[cycle(parser)]
fn paren(
    script: &Script,
    tree: &mut Tree,
    at: usize,
    depth: u32,
) -> Result<(ExprId, usize), Refusal>
    requires ready { IsReady script.now at depth (trees tree.old) }
    requires here { Next script.now at sign.Open }
    requires inside { at + 1 < length script.now }
    ensures { ReadsExpr (λ k. Wants (PrimaryAt depth ∷ k)) (λ k. k)
        script.now at (trees tree.old) (trees tree.new) result }
{
    let inner = deeper(depth, at)?;
    let (id, close) = whole(script, tree, at + 1, inner)?;
    let next = expect(script, close, Sign::Close)?;
    Ok((id, next))
}

#[cycle(parser)]
fn array(
    script: &Script,
    tree: &mut Tree,
    at: usize,
    depth: u32,
) -> Result<(ExprId, usize), Refusal>
    requires ready { IsReady script.now at depth (trees tree.old) }
    requires here { Next script.now at sign.OpenSquare }
    requires inside { at + 1 < length script.now }
    ensures { ReadsExpr (λ k. Wants (PrimaryAt depth ∷ k)) (λ k. k)
        script.now at (trees tree.old) (trees tree.new) result }
{
    let inner = deeper(depth, at)?;
    let (list, close) = items(script, tree, at + 1, inner, false)?;
    let next = expect(script, close, Sign::CloseSquare)?;
    let place = script.place(at);
    add_plain(script, tree, Expr::Array(list), place, next)
}

// A key, its colon and its value.
#[cycle(parser)]
fn property(
    script: &Script,
    tree: &mut Tree,
    at: usize,
    depth: u32,
) -> Result<(Text, ExprId, usize), Refusal>
    requires { IsReady script.now at depth (trees tree.old) }
    ensures { MatchResult result
        (λ x. ReadsProperty depth script.now at (trees tree.old) (trees tree.new) x.0 x.1 x.2)
        (λ e. (ps : Properties) (names : List ℕ) →
        Refuses (λ k. Wants (NextKey depth ps names ∷ k)) script.now at e) }
{
    let name = key(script, at)?;
    let colon = at + 1;
    let first = expect(script, colon, Sign::Colon)?;
    let (id, next) = assignment(script, tree, first, depth, false)?;
    Ok((name, id, next))
}

// The keys and the values of an object literal, with its closing brace, and the places of the keys.
#[cycle(parser)]
fn keys(
    script: &Script,
    tree: &mut Tree,
    at: usize,
    depth: u32,
) -> Result<(Vec<(Text, ExprId)>, Vec<usize>, usize), Refusal>
    requires { IsReady script.now at depth (trees tree.old) }
    ensures { MatchResult result
        (λ x. ReadsKeys depth script.now at (trees tree.old) (trees tree.new) x.0.items x.1.items x.2)
        (λ e. (o : ℕ) (w : Lexeme) → Refuses (λ k. Wants (FirstKey depth ∷ ObjectEnd o w ∷ k)) script.now at e) }
{
    let mut list = Vec::new(script.alloc());
    let mut names = Vec::new(script.alloc());
    if let Sign::CloseBrace = script.peek(at) {
        return Ok((list, names, at + 1));
    }
    let mut place = at;
    'keys: loop {
        let (name, id, next) = property(script, tree, place, depth)?;
        list.push((name, id))?;
        names.push(script.place(place))?;
        match script.peek(next) {
            Sign::CloseBrace => return Ok((list, names, next + 1)),
            Sign::Comma => place = next + 1,
            _ => return Err(Refusal::Syntax(next)),
        }
    }
}

#[cycle(parser)]
fn object(
    script: &Script,
    tree: &mut Tree,
    at: usize,
    depth: u32,
) -> Result<(ExprId, usize), Refusal>
    requires ready { IsReady script.now at depth (trees tree.old) }
    requires here { Next script.now at sign.OpenBrace }
    requires inside { at + 1 < length script.now }
    ensures { ReadsExpr (λ k. Wants (PrimaryAt depth ∷ k)) (λ k. k)
        script.now at (trees tree.old) (trees tree.new) result }
{
    let inner = deeper(depth, at)?;
    let (list, names, next) = keys(script, tree, at + 1, inner)?;
    let place = script.place(at);
    add(tree, Expr::Object(list), place, names, next)
}

#[cycle(parser)]
fn function(
    script: &Script,
    tree: &mut Tree,
    at: usize,
    depth: u32,
) -> Result<(ExprId, usize), Refusal>
    requires ready { IsReady script.now at depth (trees tree.old) }
    requires here { Next script.now at sign.Function }
    requires inside { at + 1 < length script.now }
    ensures { ReadsExpr (λ k. Wants (PrimaryAt depth ∷ k)) (λ k. k)
        script.now at (trees tree.old) (trees tree.new) result }
{
    let (own, open) = own_name(script, at + 1);
    let (fun, next) = code(script, tree, open, depth, at, own)?;
    let place = script.place(at);
    add_plain(script, tree, Expr::Function(fun), place, next)
}

// A subscript in its brackets.
#[cycle(parser)]
fn subscript(
    script: &Script,
    tree: &mut Tree,
    left: ExprId,
    at: usize,
    depth: u32,
) -> Result<(ExprId, usize), Refusal>
    requires ready { IsReady script.now at depth (trees tree.old) }
    requires left { IsExpr (trees tree.old) left }
    requires here { Next script.now at sign.OpenSquare }
    requires inside { at + 1 < length script.now }
    ensures { (f : Frame) → IsTail depth f →
        ReadsExpr (λ k. Gives (expr_at (trees tree.old) left) (f ∷ k)) (λ k. f ∷ k) script.now at (trees tree.old)
        (trees tree.new) result }
{
    let inner = deeper(depth, at)?;
    let (index, close) = whole(script, tree, at + 1, inner)?;
    let next = expect(script, close, Sign::CloseSquare)?;
    let place = tree.expr_at(left);
    add_plain(script, tree, Expr::Sub(left, index), place, next)
}

// Arguments in their brackets.
#[cycle(parser)]
fn call(
    script: &Script,
    tree: &mut Tree,
    left: ExprId,
    at: usize,
    depth: u32,
) -> Result<(ExprId, usize), Refusal>
    requires ready { IsReady script.now at depth (trees tree.old) }
    requires left { IsExpr (trees tree.old) left }
    requires here { Next script.now at sign.Open }
    requires inside { at + 1 < length script.now }
    ensures { ReadsExpr (λ k. Gives (expr_at (trees tree.old) left) (Tail depth ∷ k)) (λ k. Tail depth ∷ k)
        script.now at (trees tree.old) (trees tree.new) result }
{
    let inner = deeper(depth, at)?;
    let (list, close) = items(script, tree, at + 1, inner, false)?;
    let next = expect(script, close, Sign::Close)?;
    let place = tree.expr_at(left);
    add_plain(script, tree, Expr::Call(left, list), place, next)
}

// The arguments of a `new` in their brackets; its word stands at `word`.
#[cycle(parser)]
fn new_call(
    script: &Script,
    tree: &mut Tree,
    left: ExprId,
    at: usize,
    depth: u32,
    word: usize,
) -> Result<(ExprId, usize), Refusal>
    requires ready { IsReady script.now at depth (trees tree.old) }
    requires left { IsExpr (trees tree.old) left }
    requires here { Next script.now at sign.Open }
    requires inside { at + 1 < length script.now }
    requires word { word < length script.now }
    ensures { ReadsExpr (λ k. Gives (expr_at (trees tree.old) left) (NewTail depth (lexeme_at script.now word) ∷ k))
        (λ k. k) script.now at (trees tree.old) (trees tree.new) result }
{
    let inner = deeper(depth, at)?;
    let (list, close) = items(script, tree, at + 1, inner, false)?;
    let next = expect(script, close, Sign::Close)?;
    let place = script.place(word);
    add_plain(script, tree, Expr::New(left, list), place, next)
}

// The operand of a `new`: a primary with properties and subscripts.
#[cycle(parser)]
fn operand(
    script: &Script,
    tree: &mut Tree,
    at: usize,
    depth: u32,
    word: usize,
) -> Result<(ExprId, usize), Refusal>
    requires ready { IsReady script.now at depth (trees tree.old) }
    requires word { word < length script.now }
    ensures { MatchResult result
        (λ x. ReadsOperandOf depth (lexeme_at script.now word)
        script.now at (trees tree.old) (trees tree.new) x.0 x.1)
        (λ e. Refuses (λ k. Wants (PrimaryAt depth ∷ NewTail depth (lexeme_at script.now word) ∷ k))
        script.now at e) }
{
    let (mut left, mut place) = primary(script, tree, at, depth)?;
    'tails: loop {
        match script.peek(place) {
            Sign::Point => {
                let (id, next) = dot(script, tree, left, place + 1, depth)?;
                left = id;
                place = next;
            }
            Sign::OpenSquare => {
                let (id, next) = subscript(script, tree, left, place, depth)?;
                left = id;
                place = next;
            }
            _ => return Ok((left, place)),
        }
    }
}

// A `new`, with the longest operand and the list behind it.
#[cycle(parser)]
fn new_form(
    script: &Script,
    tree: &mut Tree,
    at: usize,
    depth: u32,
) -> Result<(ExprId, usize), Refusal>
    requires ready { IsReady script.now at depth (trees tree.old) }
    requires here { Next script.now at sign.New }
    requires inside { at + 1 < length script.now }
    ensures { ReadsExpr (λ k. Wants (UnaryAt depth ∷ k)) (λ k. Tail depth ∷ Target depth ∷ k)
        script.now at (trees tree.old) (trees tree.new) result }
{
    let (left, next) = operand(script, tree, at + 1, depth, at)?;
    match script.peek(next) {
        Sign::Open => new_call(script, tree, left, next, depth, at),
        _ => {
            let place = script.place(at);
            let node = Expr::New(left, Vec::new(script.alloc()));
            add_plain(script, tree, node, place, next)
        }
    }
}

// The first part of a left-hand form.
#[cycle(parser)]
fn head(script: &Script, tree: &mut Tree, at: usize, depth: u32) -> Result<(ExprId, usize), Refusal>
    requires ready { IsReady script.now at depth (trees tree.old) }
    requires bare { IsNext script.now at (λ s. prefix_of s ≡ None) }
    ensures { ReadsExpr (λ k. Wants (UnaryAt depth ∷ k)) (λ k. Tail depth ∷ Target depth ∷ k)
        script.now at (trees tree.old) (trees tree.new) result }
{
    match script.peek(at) {
        Sign::New => new_form(script, tree, at, depth),
        _ => primary(script, tree, at, depth),
    }
}

// What may stand on the left side of an assignment.
#[cycle(parser)]
fn left_hand(
    script: &Script,
    tree: &mut Tree,
    at: usize,
    depth: u32,
) -> Result<(ExprId, usize), Refusal>
    requires ready { IsReady script.now at depth (trees tree.old) }
    requires bare { IsNext script.now at (λ s. prefix_of s ≡ None) }
    ensures { ReadsExpr (λ k. Wants (UnaryAt depth ∷ k)) (λ k. Target depth ∷ k)
        script.now at (trees tree.old) (trees tree.new) result }
{
    let (mut left, mut place) = head(script, tree, at, depth)?;
    'tails: loop {
        match script.peek(place) {
            Sign::Point => {
                let (id, next) = dot(script, tree, left, place + 1, depth)?;
                left = id;
                place = next;
            }
            Sign::OpenSquare => {
                let (id, next) = subscript(script, tree, left, place, depth)?;
                left = id;
                place = next;
            }
            Sign::Open => {
                let (id, next) = call(script, tree, left, place, depth)?;
                left = id;
                place = next;
            }
            _ => return Ok((left, place)),
        }
    }
}

// A prefix operator and its operand.
#[cycle(parser)]
fn prefixed(
    script: &Script,
    tree: &mut Tree,
    at: usize,
    depth: u32,
    operator: Prefix,
) -> Result<(ExprId, usize), Refusal>
    requires ready { IsReady script.now at depth (trees tree.old) }
    requires here { IsNext script.now at (λ s. prefix_of s ≡ Some operator) }
    requires inside { at + 1 < length script.now }
    ensures { ReadsExpr (λ k. Wants (UnaryAt depth ∷ k)) (λ k. k)
        script.now at (trees tree.old) (trees tree.new) result }
{
    let inner = deeper(depth, at)?;
    let (id, next) = unary(script, tree, at + 1, inner)?;
    let place = script.place(at);
    add_plain(script, tree, prefix_node(operator, id), place, next)
}

// An operand without a prefix operator.
#[cycle(parser)]
fn bare(script: &Script, tree: &mut Tree, at: usize, depth: u32) -> Result<(ExprId, usize), Refusal>
    requires ready { IsReady script.now at depth (trees tree.old) }
    requires bare { IsNext script.now at (λ s. prefix_of s ≡ None) }
    ensures { ReadsOperand depth script.now at (trees tree.old) (trees tree.new) result }
{
    let (left, next) = left_hand(script, tree, at, depth)?;
    match assigning(script.peek(next)) {
        Some(_) => Err(Refusal::Syntax(next)),
        None => stepped(script, tree, left, next, depth),
    }
}

// An operand.
#[cycle(parser)]
fn unary(
    script: &Script,
    tree: &mut Tree,
    at: usize,
    depth: u32,
) -> Result<(ExprId, usize), Refusal>
    requires { IsReady script.now at depth (trees tree.old) }
    ensures { ReadsOperand depth script.now at (trees tree.old) (trees tree.new) result }
{
    match prefix(script.peek(at)) {
        Some(operator) => prefixed(script, tree, at, depth, operator),
        None => bare(script, tree, at, depth),
    }
}

// The right operand of an operator: with operators below the limit.
#[cycle(parser)]
fn operators(
    script: &Script,
    tree: &mut Tree,
    at: usize,
    depth: u32,
    no_in: bool,
    limit: u32,
) -> Result<(ExprId, usize), Refusal>
    requires ready { IsReady script.now at depth (trees tree.old) }
    requires limit { limit ≤ 10 }
    ensures { (o : Infix) (a : PlainExpr) →
        ReadsExpr (λ k. Wants (UnaryAt depth ∷ Rest no_in limit depth ∷ Right o a ∷ k)) (λ k. Right o a ∷ k)
        script.now at (trees tree.old) (trees tree.new) result }
{
    let (left, next) = unary(script, tree, at, depth)?;
    chain(script, tree, left, next, depth, no_in, limit)
}

// An operator and its right operand.
#[cycle(parser)]
fn joined(
    script: &Script,
    tree: &mut Tree,
    left: ExprId,
    at: usize,
    depth: u32,
    no_in: bool,
    operator: Infix,
) -> Result<(ExprId, usize), Refusal>
    requires ready { IsReady script.now at depth (trees tree.old) }
    requires left { IsExpr (trees tree.old) left }
    requires here { IsNext script.now at (λ s. infix_of s no_in ≡ Some operator) }
    requires inside { at + 1 < length script.now }
    ensures { (n : ℕ) → level_of operator < n →
        ReadsExpr (λ k. Gives (expr_at (trees tree.old) left) (Rest no_in n depth ∷ k))
        (λ k. Rest no_in n depth ∷ k) script.now at (trees tree.old) (trees tree.new) result }
{
    let limit = level(operator);
    let (right, next) = operators(script, tree, at + 1, depth, no_in, limit)?;
    let place = tree.expr_at(left);
    add_plain(script, tree, infix_node(operator, left, right), place, next)
}

// The operators below the limit behind an operand, from left to right.
#[cycle(parser)]
fn chain(
    script: &Script,
    tree: &mut Tree,
    first: ExprId,
    at: usize,
    depth: u32,
    no_in: bool,
    limit: u32,
) -> Result<(ExprId, usize), Refusal>
    requires ready { IsReady script.now at depth (trees tree.old) }
    requires left { IsExpr (trees tree.old) first }
    requires limit { limit ≤ 10 }
    ensures { GoesOn (λ k. Gives (expr_at (trees tree.old) first) (Rest no_in limit depth ∷ k)) (λ k. k)
        script.now at (trees tree.old) (trees tree.new) result }
{
    let mut left = first;
    let mut place = at;
    'chain: loop {
        match infix_below(script.peek(place), no_in, limit) {
            Some(operator) => {
                let (id, next) = joined(script, tree, left, place, depth, no_in, operator)?;
                left = id;
                place = next;
            }
            None => return Ok((left, place)),
        }
    }
}

// The second and the third part of a condition.
#[cycle(parser)]
fn choice(
    script: &Script,
    tree: &mut Tree,
    test: ExprId,
    at: usize,
    depth: u32,
    no_in: bool,
) -> Result<(ExprId, usize), Refusal>
    requires ready { IsReady script.now at depth (trees tree.old) }
    requires left { IsExpr (trees tree.old) test }
    requires here { Next script.now at sign.Question }
    requires inside { at + 1 < length script.now }
    ensures { ReadsExpr (λ k. Gives (expr_at (trees tree.old) test) (Choice no_in depth ∷ k)) (λ k. k)
        script.now at (trees tree.old) (trees tree.new) result }
{
    let inner = deeper(depth, at)?;
    let (chosen, colon) = assignment(script, tree, at + 1, inner, no_in)?;
    let first = expect(script, colon, Sign::Colon)?;
    let (other, next) = assignment(script, tree, first, inner, no_in)?;
    let place = tree.expr_at(test);
    add_plain(script, tree, Expr::Cond(test, chosen, other), place, next)
}

// What may stand behind the first operand of an expression.
#[cycle(parser)]
fn conditional(
    script: &Script,
    tree: &mut Tree,
    first: ExprId,
    at: usize,
    depth: u32,
    no_in: bool,
) -> Result<(ExprId, usize), Refusal>
    requires ready { IsReady script.now at depth (trees tree.old) }
    requires left { IsExpr (trees tree.old) first }
    ensures { GoesOn (λ k. Gives (expr_at (trees tree.old) first) (Rest no_in 10 depth ∷ Choice no_in depth ∷ k))
        (λ k. k) script.now at (trees tree.old) (trees tree.new) result }
{
    let (test, next) = chain(script, tree, first, at, depth, no_in, 10)?;
    match script.peek(next) {
        Sign::Question => choice(script, tree, test, next, depth, no_in),
        _ => Ok((test, next)),
    }
}

// The right side of an assignment.
#[cycle(parser)]
fn assigned(
    script: &Script,
    tree: &mut Tree,
    left: ExprId,
    at: usize,
    depth: u32,
    no_in: bool,
    operator: AssignOp,
) -> Result<(ExprId, usize), Refusal>
    requires ready { IsReady script.now at depth (trees tree.old) }
    requires left { IsExpr (trees tree.old) left }
    requires here { IsNext script.now at (λ s. assign_of s ≡ Some operator) }
    requires inside { at + 1 < length script.now }
    ensures { ReadsExpr (λ k. Gives (expr_at (trees tree.old) left)
        (Target depth ∷ Rest no_in 10 depth ∷ Choice no_in depth ∷ k)) (λ k. k) script.now at (trees tree.old)
        (trees tree.new) result }
{
    let inner = deeper(depth, at)?;
    let (right, next) = assignment(script, tree, at + 1, inner, no_in)?;
    let place = tree.expr_at(left);
    add_plain(
        script,
        tree,
        Expr::Assign(operator, left, right),
        place,
        next,
    )
}

// An expression without commas and without a prefix operator at its start.
#[cycle(parser)]
fn bare_assignment(
    script: &Script,
    tree: &mut Tree,
    at: usize,
    depth: u32,
    no_in: bool,
) -> Result<(ExprId, usize), Refusal>
    requires ready { IsReady script.now at depth (trees tree.old) }
    requires bare { IsNext script.now at (λ s. prefix_of s ≡ None) }
    ensures { ReadsExpr (λ k. Wants (expr no_in depth k)) (λ k. k)
        script.now at (trees tree.old) (trees tree.new) result }
{
    let (left, next) = left_hand(script, tree, at, depth)?;
    match assigning(script.peek(next)) {
        Some(operator) => assigned(script, tree, left, next, depth, no_in, operator),
        None => {
            let (first, behind) = stepped(script, tree, left, next, depth)?;
            conditional(script, tree, first, behind, depth, no_in)
        }
    }
}

/// An expression without commas; with `no_in`, without `in` outside brackets.
#[cycle(parser)]
pub fn assignment(
    script: &Script,
    tree: &mut Tree,
    at: usize,
    depth: u32,
    no_in: bool,
) -> Result<(ExprId, usize), Refusal>
    requires { IsReady script.now at depth (trees tree.old) }
    ensures { ReadsExpr (λ k. Wants (expr no_in depth k)) (λ k. k)
        script.now at (trees tree.old) (trees tree.new) result }
{
    match prefix(script.peek(at)) {
        Some(operator) => {
            let (first, next) = prefixed(script, tree, at, depth, operator)?;
            conditional(script, tree, first, next, depth, no_in)
        }
        None => bare_assignment(script, tree, at, depth, no_in),
    }
}

// What stands behind a comma.
#[cycle(parser)]
fn comma(
    script: &Script,
    tree: &mut Tree,
    left: ExprId,
    at: usize,
    depth: u32,
) -> Result<(ExprId, usize), Refusal>
    requires ready { IsReady script.now at depth (trees tree.old) }
    requires left { IsExpr (trees tree.old) left }
    requires here { Next script.now at sign.Comma }
    requires inside { at + 1 < length script.now }
    ensures { ReadsExpr (λ k. Gives (expr_at (trees tree.old) left) (Commas depth ∷ k)) (λ k. Commas depth ∷ k)
        script.now at (trees tree.old) (trees tree.new) result }
{
    let (right, next) = assignment(script, tree, at + 1, depth, false)?;
    let place = tree.expr_at(left);
    add_plain(script, tree, Expr::Comma(left, right), place, next)
}

/// An expression.
#[cycle(parser)]
pub fn whole(
    script: &Script,
    tree: &mut Tree,
    at: usize,
    depth: u32,
) -> Result<(ExprId, usize), Refusal>
    requires { IsReady script.now at depth (trees tree.old) }
    ensures { ReadsExpr (λ k. Wants (whole_frames depth k)) (λ k. k)
        script.now at (trees tree.old) (trees tree.new) result }
{
    let (mut left, mut place) = assignment(script, tree, at, depth, false)?;
    'commas: loop {
        match script.peek(place) {
            Sign::Comma => {
                let (id, next) = comma(script, tree, left, place, depth)?;
                left = id;
                place = next;
            }
            _ => return Ok((left, place)),
        }
    }
}

// Assignment expressions between commas, at least one.
#[cycle(parser)]
fn some_items(
    script: &Script,
    tree: &mut Tree,
    at: usize,
    depth: u32,
    no_in: bool,
) -> Result<(Vec<ExprId>, usize), Refusal>
    requires ready { IsReady script.now at depth (trees tree.old) }
    requires begins { IsNext script.now at (λ s. (s ≢ sign.Close) × (s ≢ sign.CloseSquare) × (s ≢ sign.Semicolon)) }
    ensures { MatchResult result
        (λ x. ReadsItems no_in depth script.now at (trees tree.old) (trees tree.new) x.0.items x.1)
        (λ e. Refuses (λ k. Wants (ItemsAt no_in depth ∷ k)) script.now at e) }
{
    let mut list = Vec::new(script.alloc());
    let mut place = at;
    'items: loop {
        let (id, next) = assignment(script, tree, place, depth, no_in)?;
        list.push(id)?;
        match script.peek(next) {
            Sign::Comma => place = next + 1,
            _ => return Ok((list, next)),
        }
    }
}

/// Assignment expressions between commas, up to what ends them.
#[cycle(parser)]
pub fn items(
    script: &Script,
    tree: &mut Tree,
    at: usize,
    depth: u32,
    no_in: bool,
) -> Result<(Vec<ExprId>, usize), Refusal>
    requires { IsReady script.now at depth (trees tree.old) }
    ensures { MatchResult result
        (λ x. ReadsItems no_in depth script.now at (trees tree.old) (trees tree.new) x.0.items x.1)
        (λ e. Refuses (λ k. Wants (ItemsAt no_in depth ∷ k)) script.now at e) }
{
    match script.peek(at) {
        Sign::Close => Ok((Vec::new(script.alloc()), at)),
        Sign::CloseSquare => Ok((Vec::new(script.alloc()), at)),
        Sign::Semicolon => Ok((Vec::new(script.alloc()), at)),
        _ => some_items(script, tree, at, depth, no_in),
    }
}
