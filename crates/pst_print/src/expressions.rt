//! Expressions and types as trees.
ghost use Rattle.std.specs.Prelude.{◌≡◌, ◌∷◌, [], IfOk, map, codes, decimal};
ghost use Rattle.std.specs.Fmt.{signed_decimal};
ghost use Rattle.pst_print.specs.Printed.{clause_form, expr_form, ty_form};
ghost use Rattle.pst_print.specs.Words.{key_word, truth_word};
ghost use Rattle.pst_sexpr.specs.Parts.{headed};
ghost use Rattle.pst_sexpr.specs.declared.form.Form.TheVariants.{Word};

use crate::parts::{
    binary_operator_word, key_type_word, list_of_three_forms, list_of_two_forms, prepend_form,
    print_name, unary_operator_word,
};
use pst_model::{Clause, Expr};
use pst_sexpr::{Form, headed, list_of_one_form, word};
use pst_value::{Boxed, Items, KeyTy, Text, Ty};
use std::alloc::{AllocError, Global};

fn print_integer_literal(alloc: Global, number: i64) -> Result<Form, AllocError>
    ensures { IfOk result (λ form. form ≡ Word (signed_decimal number)) }
{
    Ok(Form::Word(Text::from_string(format!(in alloc; "{number}")?)))
}

fn print_tuple_place(alloc: Global, number: u64) -> Result<Form, AllocError>
    ensures { IfOk result (λ form. form ≡ Word (decimal number)) }
{
    Ok(Form::Word(Text::from_string(format!(in alloc; "{number}")?)))
}

fn print_bool_literal(alloc: Global, holds: bool) -> Result<Form, AllocError>
    ensures { IfOk result (λ form. form ≡ Word (truth_word holds)) }
{
    if holds {
        word(alloc, "true")
    } else {
        word(alloc, "false")
    }
}

/// A node of a word and two trees.
fn node_with_two_parts(
    alloc: Global,
    head: &str,
    first: Form,
    second: Form,
) -> Result<Form, AllocError>
    ensures { IfOk result (λ form. form ≡ headed head.now (first ∷ second ∷ [])) }
{
    headed(alloc, head, list_of_two_forms(alloc, first, second)?)
}

/// A node of a word and three trees.
fn node_with_three_parts(
    alloc: Global,
    head: &str,
    first: Form,
    second: Form,
    third: Form,
) -> Result<Form, AllocError>
    ensures { IfOk result (λ form. form ≡ headed head.now (first ∷ second ∷ third ∷ [])) }
{
    let parts = list_of_three_forms(alloc, first, second, third)?;
    headed(alloc, head, parts)
}

/// An item of a tuple, by its place from 0.
fn tuple_item_node(alloc: Global, tuple: Form, number: u64) -> Result<Form, AllocError>
    ensures { IfOk result (λ form. form ≡ headed (codes "at") (tuple ∷ Word (decimal number) ∷ [])) }
{
    let place = print_tuple_place(alloc, number)?;
    node_with_two_parts(alloc, "at", tuple, place)
}

/// A list of items of a type.
fn list_node(alloc: Global, ty: &Ty, items: Items<Form>) -> Result<Form, AllocError>
    ensures { IfOk result (λ form. form ≡ headed (codes "list") (ty_form ty.now ∷ items)) }
{
    let ty = ty_form(alloc, ty)?;
    headed(alloc, "list", prepend_form(alloc, ty, items)?)
}

/// The empty map of a type of keys and a type of values.
fn print_empty_map(alloc: Global, kind: KeyTy, ty: &Ty) -> Result<Form, AllocError>
    ensures { IfOk result (λ form. form ≡ headed (codes "map") (Word (key_word kind) ∷ ty_form ty.now ∷ [])) }
{
    print_map_type(alloc, kind, ty_form(alloc, ty)?)
}

/// A fold, by the names of an item and of what is built.
fn fold_node(
    alloc: Global,
    names: (&Text, &Text),
    items: Form,
    first: Form,
    body: Form,
) -> Result<Form, AllocError>
    ensures { IfOk result (λ form. form ≡ headed (codes "fold")
        (Word names.entry.0.now ∷ items ∷ Word names.entry.1.now ∷ first ∷ body ∷ [])) }
{
    let built = print_name(alloc, names.1)?;
    let rest = list_of_three_forms(alloc, built, first, body)?;
    let rest = prepend_form(alloc, items, rest)?;
    let bound = print_name(alloc, names.0)?;
    headed(alloc, "fold", prepend_form(alloc, bound, rest)?)
}

/// A call of an operation.
fn call_node(alloc: Global, operation: &Text, args: Items<Form>) -> Result<Form, AllocError>
    ensures { IfOk result (λ form. form ≡ headed (codes "call") (Word operation.now ∷ args)) }
{
    let operation = print_name(alloc, operation)?;
    headed(alloc, "call", prepend_form(alloc, operation, args)?)
}

/// The tree of an expression. The function is long because it has an arm for each form.
#[cycle(expr_form)]
#[tactic(auto, using(crate::proofs::Forms::expr_forms))]
pub fn expr_form(alloc: Global, expr: &Expr) -> Result<Form, AllocError>
    ensures { IfOk result (λ form. form ≡ expr_form expr.now) }
{
    match expr {
        Expr::Int(number) => print_integer_literal(alloc, *number),
        Expr::Bool(holds) => print_bool_literal(alloc, *holds),
        Expr::Text(text) => Ok(Form::Text(text.copy(alloc)?)),
        Expr::Name(bound) => print_name(alloc, bound),
        Expr::Let(bound, value, body) => print_let(alloc, body, bound, print_boxed(alloc, value)?),
        Expr::If(test, yes, no) => {
            let test = print_boxed(alloc, test)?;
            print_node_of_three(alloc, no, "if", test, print_boxed(alloc, yes)?)
        }
        Expr::And(a, b) => print_node_of_two(alloc, b, "and", print_boxed(alloc, a)?),
        Expr::Or(a, b) => print_node_of_two(alloc, b, "or", print_boxed(alloc, a)?),
        Expr::Unary(operator, a) => print_node_of_one(alloc, unary_operator_word(*operator), a),
        Expr::Binary(operator, a, b) => {
            print_node_of_two(
                alloc,
                b,
                binary_operator_word(*operator),
                print_boxed(alloc, a)?,
            )
        }
        Expr::Tuple(parts) => headed(alloc, "tuple", print_expressions(alloc, parts.as_slice())?),
        Expr::At(tuple, number) => tuple_item_node(alloc, print_boxed(alloc, tuple)?, *number),
        Expr::List(ty, items) => list_node(alloc, ty, print_expressions(alloc, items.as_slice())?),
        Expr::For(clauses, body) => {
            let clauses = Form::Node(print_clauses(alloc, clauses.as_slice())?);
            print_node_of_two(alloc, body, "for", clauses)
        }
        Expr::Fold(bound, items, built, first, body) => {
            let items = print_boxed(alloc, items)?;
            print_fold(
                alloc,
                body,
                (bound, built),
                items,
                print_boxed(alloc, first)?,
            )
        }
        Expr::Map(kind, ty) => print_empty_map(alloc, *kind, ty),
        Expr::Put(map, key, value) => {
            let map = print_boxed(alloc, map)?;
            print_node_of_three(alloc, value, "put", map, print_boxed(alloc, key)?)
        }
        Expr::Call(called, args) => {
            call_node(alloc, called, print_expressions(alloc, args.as_slice())?)
        }
        Expr::Apply(called, args) => {
            headed(
                alloc,
                called.as_str(),
                print_expressions(alloc, args.as_slice())?,
            )
        }
    }
}

/// A node of a word and a part of an expression.
#[cycle(expr_form)]
fn print_node_of_one(alloc: Global, head: &str, part: &Boxed<Expr>) -> Result<Form, AllocError>
    ensures { IfOk result (λ form. form ≡ headed head.now (expr_form part.now ∷ [])) }
{
    let part = print_boxed(alloc, part)?;
    headed(alloc, head, list_of_one_form(alloc, part)?)
}

/// A node of a word, a tree and a part of an expression.
#[cycle(expr_form)]
fn print_node_of_two(
    alloc: Global,
    second: &Boxed<Expr>,
    head: &str,
    first: Form,
) -> Result<Form, AllocError>
    ensures { IfOk result (λ form. form ≡ headed head.now (first ∷ expr_form second.now ∷ [])) }
{
    node_with_two_parts(alloc, head, first, print_boxed(alloc, second)?)
}

/// A node of a word, two trees and a part of an expression.
#[cycle(expr_form)]
fn print_node_of_three(
    alloc: Global,
    third: &Boxed<Expr>,
    head: &str,
    first: Form,
    second: Form,
) -> Result<Form, AllocError>
    ensures { IfOk result
        (λ form. form ≡ headed head.now (first ∷ second ∷ expr_form third.now ∷ [])) }
{
    node_with_three_parts(alloc, head, first, second, print_boxed(alloc, third)?)
}

/// A `let`: a name, its value and a body.
#[cycle(expr_form)]
fn print_let(
    alloc: Global,
    body: &Boxed<Expr>,
    bound: &Text,
    value: Form,
) -> Result<Form, AllocError>
    ensures { IfOk result
        (λ form. form ≡ headed (codes "let") (Word bound.now ∷ value ∷ expr_form body.now ∷ [])) }
{
    let body = print_boxed(alloc, body)?;
    node_with_three_parts(alloc, "let", print_name(alloc, bound)?, value, body)
}

/// A fold, by the names of an item and of what is built.
#[cycle(expr_form)]
fn print_fold(
    alloc: Global,
    body: &Boxed<Expr>,
    names: (&Text, &Text),
    items: Form,
    first: Form,
) -> Result<Form, AllocError>
    ensures { IfOk result (λ form. form ≡ headed (codes "fold") (Word names.entry.0.now ∷ items
        ∷ Word names.entry.1.now ∷ first ∷ expr_form body.now ∷ [])) }
{
    fold_node(alloc, names, items, first, print_boxed(alloc, body)?)
}

/// The tree of a part of an expression.
#[cycle(expr_form)]
fn print_boxed(alloc: Global, part: &Boxed<Expr>) -> Result<Form, AllocError>
    ensures { IfOk result (λ form. form ≡ expr_form part.now) }
{
    expr_form(alloc, part.get())
}

#[cycle(expr_form)]
fn print_expressions(alloc: Global, exprs: &[Expr]) -> Result<Items<Form>, AllocError>
    ensures { IfOk result (λ forms. forms ≡ map expr_form exprs.now) }
{
    let mut forms = Items::new(alloc);
    for expr in exprs {
        forms.push(expr_form(alloc, expr)?)?;
    }
    Ok(forms)
}

#[cycle(expr_form)]
fn print_clauses(alloc: Global, clauses: &[Clause]) -> Result<Items<Form>, AllocError>
    ensures { IfOk result (λ forms. forms ≡ map clause_form clauses.now) }
{
    let mut forms = Items::new(alloc);
    for clause in clauses {
        forms.push(print_clause(alloc, clause)?)?;
    }
    Ok(forms)
}

#[cycle(expr_form)]
#[tactic(auto, using(crate::proofs::Forms::expr_forms))]
fn print_clause(alloc: Global, clause: &Clause) -> Result<Form, AllocError>
    ensures { IfOk result (λ form. form ≡ clause_form clause.now) }
{
    match clause {
        Clause::In(bound, list) => {
            let bound = print_name(alloc, bound)?;
            let list = expr_form(alloc, list)?;
            headed(alloc, "in", list_of_two_forms(alloc, bound, list)?)
        }
        Clause::When(condition) => {
            let condition = expr_form(alloc, condition)?;
            headed(alloc, "when", list_of_one_form(alloc, condition)?)
        }
    }
}

/// The tree of a map type, and that of an empty map: the type of the keys, and the tree of the values' type.
fn print_map_type(alloc: Global, kind: KeyTy, ty: Form) -> Result<Form, AllocError>
    ensures { IfOk result (λ form. form ≡ headed (codes "map") (Word (key_word kind) ∷ ty ∷ [])) }
{
    let kind = word(alloc, key_type_word(kind))?;
    headed(alloc, "map", list_of_two_forms(alloc, kind, ty)?)
}

/// The tree of a type.
#[cycle(ty_form)]
#[tactic(auto, using(crate::proofs::Forms::ty_forms))]
pub fn ty_form(alloc: Global, ty: &Ty) -> Result<Form, AllocError>
    ensures { IfOk result (λ form. form ≡ ty_form ty.now) }
{
    match ty {
        Ty::Int => word(alloc, "int"),
        Ty::Bool => word(alloc, "bool"),
        Ty::Text => word(alloc, "text"),
        Ty::Tuple(types) => headed(alloc, "tuple", print_types(alloc, types.as_slice())?),
        Ty::List(item) => headed(
            alloc,
            "list",
            list_of_one_form(alloc, ty_form(alloc, item.get())?)?,
        ),
        Ty::Map(kind, item) => print_map_type(alloc, *kind, ty_form(alloc, item.get())?),
        Ty::Ref(item) => headed(
            alloc,
            "ref",
            list_of_one_form(alloc, ty_form(alloc, item.get())?)?,
        ),
        Ty::Call => word(alloc, "call"),
    }
}

#[cycle(ty_form)]
fn print_types(alloc: Global, types: &[Ty]) -> Result<Items<Form>, AllocError>
    ensures { IfOk result (λ forms. forms ≡ map ty_form types.now) }
{
    let mut forms = Items::new(alloc);
    for ty in types {
        forms.push(ty_form(alloc, ty)?)?;
    }
    Ok(forms)
}
