//! Laws of the numbers of operators, which are also numbers of operations of X. They are separate from `laws` because they don't speak of
//! runs.

ghost use Rattle.bc_machine_defs.specs.OperatorLaws.{OperatorsAreOperations, OperationsAreOperators};

/// The operation of X with an operator's number computes that operator.
pub fn operators_are_operations()
    ensures { OperatorsAreOperations }
{}

/// An operation of X that computes an operator has that operator's number.
pub fn operations_are_operators()
    ensures { OperationsAreOperators }
{}
