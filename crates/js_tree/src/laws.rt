//! Laws of the words that contracts speak of.
ghost use Rattle.std.specs.Prelude.{◌≡◌, ℕ, ◌+◌, ◌↔◌, List, All, map};
ghost use Rattle.js_tree.specs.declared.nodes.ExprId.{ExprId};
ghost use Rattle.js_tree.specs.declared.nodes.StmtId.{StmtId};
ghost use Rattle.js_tree.specs.declared.nodes.FunId.{FunId};
ghost use Rattle.js_tree.specs.declared.nodes.Decl.{Decl};
ghost use Rattle.js_tree.specs.declared.nodes.Clause.{Clause};
ghost use Rattle.js_tree.specs.declared.nodes.Expr.{Expr as ExprNode};
ghost use Rattle.js_tree.specs.declared.nodes.Stmt.{Stmt as StmtNode};
ghost use Rattle.js_tree.specs.declared.nodes.Fun.{Fun as FunNode};
ghost use Rattle.js_tree.specs.Forest.{Forest, expr_at, stmt_at, fun_at, optional_at, exprs_at, stmts_at, funs_at, properties_at, decls_at, clauses_at, plain_expr, plain_stmt, plain_fun, AreExprParts, AreStmtParts, AreFunParts};
ghost use Rattle.js_tree.specs.Parts.{Spot, AnExpr, AStmt, AFun, spot_at, IsIn, expr_parts, stmt_parts, fun_parts, parts_of, spot_size, spots_size};
ghost use Rattle.js_tree.specs.Lists.{expr_list, stmt_list, fun_list, property_list, decl_list, clause_list};

/// The parts that a node lists stand for the parts of its plain tree.
pub fn parts_agree()
    ensures exprs { (f : Forest) (n : ExprNode) (at : ℕ) (names : List ℕ) →
        map (spot_at f) (expr_parts n) ≡ parts_of (AnExpr (plain_expr f n at names)) }
    ensures stmts { (f : Forest) (n : StmtNode) (at : ℕ) (names : List ℕ) →
        map (spot_at f) (stmt_parts n) ≡ parts_of (AStmt (plain_stmt f n at names)) }
    ensures funs { (f : Forest) (n : FunNode) (names : List ℕ) →
        map (spot_at f) (fun_parts n) ≡ parts_of (AFun (plain_fun f n names)) }
{}

/// The parts of a node are in the tree exactly where each of its list is.
pub fn parts_are_in()
    ensures exprs { (f : Forest) (n : ExprNode) → AreExprParts f n ↔ All (IsIn f) (expr_parts n) }
    ensures stmts { (f : Forest) (n : StmtNode) → AreStmtParts f n ↔ All (IsIn f) (stmt_parts n) }
    ensures funs { (f : Forest) (n : FunNode) → AreFunParts f n ↔ All (IsIn f) (fun_parts n) }
{}

/// A tree has one node more than its parts together, so a walk down to parts ends.
pub fn sizes_fall()
    ensures { (s : Spot) → spot_size s ≡ 1 + spots_size (parts_of s) }
{}

/// The trees of a list of numbers are the list of their trees, and so for the other lists of a node.
pub fn lists_agree()
    ensures exprs { (f : Forest) (ids : List ExprId) → expr_list (exprs_at f ids) ≡ map (expr_at f) ids }
    ensures stmts { (f : Forest) (ids : List StmtId) → stmt_list (stmts_at f ids) ≡ map (stmt_at f) ids }
    ensures funs { (f : Forest) (ids : List FunId) → fun_list (funs_at f ids) ≡ map (fun_at f) ids }
    ensures properties { (f : Forest) (ps : List (List ℕ × ExprId)) →
        property_list (properties_at f ps) ≡ map (λ p. (p.0, expr_at f p.1)) ps }
    ensures decls { (f : Forest) (ds : List Decl) →
        decl_list (decls_at f ds) ≡ map (λ d. (d.name, optional_at f d.init)) ds }
    ensures clauses { (f : Forest) (cs : List Clause) →
        clause_list (clauses_at f cs) ≡ map (λ c. (optional_at f c.test, stmt_list (stmts_at f c.body.items))) cs }
{}
