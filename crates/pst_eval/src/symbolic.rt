//! Symbolic equals real: evaluating with results in place of variables is evaluating with variables, and then putting the results in.
ghost use Rattle.pst_eval.specs.SymbolicLaws.{SymbolicEqualsReal, InitIsReal, CommandIsReal, PreIsReal, NextIsReal};

/// Evaluating an expression of mode plain with results in place of variables gives what evaluating it with
/// variables gives, once the results are put into the value: the same fault, and the same turns left. It is
/// never stuck.
pub fn symbolic_evaluation_equals_real()
    ensures { SymbolicEqualsReal }
{}

/// The real initial state is the symbolic one, whatever results are put in.
pub fn real_init_equals_symbolic_init()
    ensures { InitIsReal }
{}

/// The calls to pick from in a real state are those of the symbolic state, with results for their variables.
pub fn real_command_equals_symbolic_command()
    ensures { CommandIsReal }
{}

/// The precondition gives the same on a real state and real arguments as on the symbolic ones.
pub fn real_pre_equals_symbolic_pre()
    ensures { PreIsReal }
{}

/// The state after a call is, from a real state, that from the symbolic one, with results for its variables.
pub fn real_next_equals_symbolic_next()
    ensures { NextIsReal }
{}
