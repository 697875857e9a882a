//! Parts of printed trees: words of operators, key types and models, and lists of two or three trees.
ghost use Rattle.std.specs.Prelude.{◌≡◌, IfOk, [], ◌∷◌};
ghost use Rattle.pst_print.specs.Words.{binary_word, key_word, model_word, unary_word};
ghost use Rattle.pst_sexpr.specs.declared.form.Form.TheVariants.{Word};

use pst_model::{Binary, Unary};
use pst_sexpr::{Form, list_of_one_form};
use pst_value::{Items, KeyTy, Text};
use std::alloc::{AllocError, Global};

/// The word of an operator of one operand.
pub fn unary_operator_word(operator: Unary) -> &'static str
    ensures { result.now ≡ unary_word operator }
{
    match operator {
        Unary::Not => "not",
        Unary::Len => "len",
        Unary::Deref => "deref",
        Unary::Keys => "keys",
    }
}

/// The word of an operator of two operands.
pub fn binary_operator_word(operator: Binary) -> &'static str
    ensures { result.now ≡ binary_word operator }
{
    match operator {
        Binary::Add => "+",
        Binary::Sub => "-",
        Binary::Mul => "*",
        Binary::Div => "div",
        Binary::Rem => "rem",
        Binary::Less => "<",
        Binary::LessEqual => "<=",
        Binary::Equal => "=",
        Binary::Same => "same",
        Binary::Append => "++",
        Binary::Nth => "nth",
        Binary::Range => "range",
        Binary::Get => "get",
        Binary::Has => "has",
        Binary::Del => "del",
    }
}

/// The word of a type of keys.
pub fn key_type_word(kind: KeyTy) -> &'static str
    ensures { result.now ≡ key_word kind }
{
    match kind {
        KeyTy::Int => "int",
        KeyTy::Bool => "bool",
        KeyTy::Text => "text",
    }
}

/// The head of a model, by whether its language has maps.
pub fn model_head_word(has_maps: bool) -> &'static str
    ensures { result.now ≡ model_word has_maps }
{
    if has_maps { "model2" } else { "model" }
}

/// A name as a word.
pub fn print_name(alloc: Global, text: &Text) -> Result<Form, AllocError>
    ensures { IfOk result (λ form. form ≡ Word text.now) }
{
    Ok(Form::Word(text.copy(alloc)?))
}

/// Two trees.
pub fn list_of_two_forms(
    alloc: Global,
    first: Form,
    second: Form,
) -> Result<Items<Form>, AllocError>
    ensures { IfOk result (λ forms. forms ≡ first ∷ second ∷ []) }
{
    let mut forms = list_of_one_form(alloc, first)?;
    forms.push(second)?;
    Ok(forms)
}

/// Three trees.
pub fn list_of_three_forms(
    alloc: Global,
    first: Form,
    second: Form,
    third: Form,
) -> Result<Items<Form>, AllocError>
    ensures { IfOk result (λ forms. forms ≡ first ∷ second ∷ third ∷ []) }
{
    let mut forms = list_of_two_forms(alloc, first, second)?;
    forms.push(third)?;
    Ok(forms)
}

/// A tree, and then others.
pub fn prepend_form(
    alloc: Global,
    first: Form,
    rest: Items<Form>,
) -> Result<Items<Form>, AllocError>
    ensures { IfOk result (λ forms. forms ≡ first ∷ rest) }
{
    let mut forms = list_of_one_form(alloc, first)?;
    forms.append(rest)?;
    Ok(forms)
}
