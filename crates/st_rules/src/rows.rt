//! Rows of operators are operations of two operands. The function does nothing: its contract is the laws.

ghost use Rattle.std.specs.Prelude.{◌≡◌, ℕ, ◌&&◌, ◌++◌};
ghost use Rattle.st_tree.specs.declared.expression.Operator.{Operator};
ghost use Rattle.st_tree.specs.Expression.{Expression, Chain, Tails, no_tails};
ghost use Rattle.st_rules.specs.declared.asked.Asked.{Asked};
ghost use Rattle.st_rules.specs.Kinds.{is_arithmetic, operation_type};
ghost use Rattle.st_rules.specs.Scope.{Scope};
ghost use Rattle.st_rules.specs.Expressions.{is_untyped, type_of, faults, front_asked, row_unsuited};
ghost use Rattle.st_rules.specs.Rows.{tails_and, beside};

/// Operators of one level group to the left. A row without operators is its first operand. A row with an operator more is the
/// operation on the row before it and the operand behind it: it is untyped where both are and the operator is arithmetic, and it has
/// the type of the operation and breaks what its operands break and what the operation breaks, each operand asked for what it is beside
/// the other.
pub fn row_laws()
    ensures untyped_alone { (l : ℕ) (e : Expression ℕ) → is_untyped (Chain l e no_tails) ≡ is_untyped e }
    ensures untyped_pair { (l k : ℕ) (e x : Expression ℕ) (ts : Tails ℕ) (o : Operator) →
        is_untyped (Chain l e (tails_and ts k o x)) ≡ (is_arithmetic o && (is_untyped (Chain l e ts) && is_untyped x)) }
    ensures type_alone { (s : Scope) (asked : Asked) (l : ℕ) (e : Expression ℕ) → type_of s asked (Chain l e no_tails) ≡ type_of s (front_asked (is_untyped e) asked) e }
    ensures type_pair { (s : Scope) (asked : Asked) (l k : ℕ) (e x : Expression ℕ) (ts : Tails ℕ) (o : Operator) →
        let row = Chain l e ts in
        type_of s asked (Chain l e (tails_and ts k o x)) ≡ operation_type o (type_of s (beside s o asked row x) row) (type_of s (beside s o asked x row) x) }
    ensures faults_pair { (s : Scope) (asked : Asked) (l k : ℕ) (e x : Expression ℕ) (ts : Tails ℕ) (o : Operator) →
        let row = Chain l e ts in
        faults s asked (Chain l e (tails_and ts k o x))
        ≡ faults s (beside s o asked row x) row ++ (faults s (beside s o asked x row) x
        ++ row_unsuited x k o (type_of s (beside s o asked row x) row) (type_of s (beside s o asked x row) x)) }
{}
