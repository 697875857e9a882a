//! What a tree is as an expression, a type or a clause, one level deep.
ghost use Rattle.std.specs.Prelude.{◌≡◌, ◌∷◌, [], option_copied, nat_lt};
ghost use Rattle.pst_sexpr.specs.Parts.{where_true};
ghost use Rattle.pst_syntax.specs.Places.{is_place};
ghost use Rattle.pst_syntax.specs.declared.words.Head.TheVariants as head;
ghost use Rattle.pst_syntax.specs.Shape as spec;
ghost use Rattle.pst_syntax.specs.Shown.{shown_option, shown_ty_option, shown_clause_option};
ghost use Rattle.pst_sexpr.specs.Integers.{magnitude, value};
ghost use Rattle.pst_syntax.specs.Places as places;

use crate::words::{Head, head_of, is_usable_name};
use pst_model as model;
use pst_sexpr::{Form, is_integer, magnitude_of, node_of, word_of};
use pst_value::{KeyTy, Text};

/// An expression, whose parts are trees yet.
#[derive(Drop)]
pub enum Shape<'a> {
    Integer(&'a Text),
    Truth(bool),
    Quoted(&'a Text),
    Used(&'a Text),
    Let(&'a Text, &'a Form, &'a Form),
    If(&'a Form, &'a Form, &'a Form),
    And(&'a Form, &'a Form),
    Or(&'a Form, &'a Form),
    Unary(model::Unary, &'a Form),
    Binary(model::Binary, &'a Form, &'a Form),
    Tuple(&'a [Form]),
    At(&'a Form, &'a Text),
    List(&'a Form, &'a [Form]),
    For(&'a [Form], &'a Form),
    Fold(FoldShape<'a>),
    /// The empty map of a type of keys and a type of values.
    Map(KeyTy, &'a Form),
    /// A map, a key and its value.
    Put(&'a Form, &'a Form, &'a Form),
    Call(&'a Text, &'a [Form]),
    Apply(&'a Text, &'a [Form]),
}

/// A fold over a list, whose parts are trees yet.
#[derive(Drop)]
pub struct FoldShape<'a> {
    pub name: &'a Text,
    pub list: &'a Form,
    pub built: &'a Text,
    pub first: &'a Form,
    pub body: &'a Form,
}

/// The trees, or `None` if there are no trees.
fn forms_unless_empty(forms: &[Form]) -> Option<&[Form]>
    ensures { option_copied result ≡ spec.some_of forms.now }
{
    match forms {
        [] => None,
        [_, ..] => Some(forms),
    }
}

fn expression_shape_of_word(has_maps: bool, word: &Text) -> Option<Shape<'_>>
    ensures { shown_option result ≡ spec.word_shape has_maps word.now }
{
    if is_integer(word) {
        return Some(Shape::Integer(word));
    }
    if word.as_str() == "true" {
        return Some(Shape::Truth(true));
    }
    if word.as_str() == "false" {
        return Some(Shape::Truth(false));
    }
    if word.as_str() == "s" || word.as_str() == "r" || is_usable_name(has_maps, word) {
        return Some(Shape::Used(word));
    }
    None
}

/// The type of the keys of a map.
pub fn read_key_type(form: &Form) -> Option<KeyTy>
    ensures { result ≡ spec.key_shape form.now }
{
    let word = word_of(form)?;
    if word.as_str() == "int" {
        return Some(KeyTy::Int);
    }
    if word.as_str() == "bool" {
        return Some(KeyTy::Bool);
    }
    if word.as_str() == "text" {
        return Some(KeyTy::Text);
    }
    None
}

fn let_shape<'a>(name: &'a Form, value: &'a Form, body: &'a Form) -> Option<Shape<'a>>
    ensures { shown_option result ≡ spec.headed head.Let (name.now ∷ value.now ∷ body.now ∷ []) }
{
    Some(Shape::Let(word_of(name)?, value, body))
}

fn tuple_item_shape<'a>(tuple: &'a Form, place: &'a Form) -> Option<Shape<'a>>
    ensures { shown_option result ≡ spec.headed head.At (tuple.now ∷ place.now ∷ []) }
{
    let place = word_of(place)?;
    if is_tuple_place(place) {
        Some(Shape::At(tuple, place))
    } else {
        None
    }
}

fn for_shape<'a>(clauses: &'a Form, body: &'a Form) -> Option<Shape<'a>>
    ensures { shown_option result ≡ spec.headed head.For (clauses.now ∷ body.now ∷ []) }
{
    Some(Shape::For(forms_unless_empty(node_of(clauses)?)?, body))
}

fn fold_shape(parts: &[Form]) -> Option<Shape<'_>>
    ensures { shown_option result ≡ spec.headed head.Fold parts.now }
{
    let [name, list, built, first, body] = parts else {
        return None;
    };
    let name = word_of(name)?;
    let built = word_of(built)?;
    Some(Shape::Fold(FoldShape {
        name,
        list,
        built,
        first,
        body,
    }))
}

fn expression_shape_by_head(head: Head, parts: &[Form]) -> Option<Shape<'_>>
    ensures { shown_option result ≡ spec.headed head parts.now }
{
    match (head, parts) {
        (Head::Let, [name, value, body]) => let_shape(name, value, body),
        (Head::If, [test, yes, no]) => Some(Shape::If(test, yes, no)),
        (Head::And, [a, b]) => Some(Shape::And(a, b)),
        (Head::Or, [a, b]) => Some(Shape::Or(a, b)),
        (Head::Unary(operator), [a]) => Some(Shape::Unary(operator, a)),
        (Head::Binary(operator), [a, b]) => Some(Shape::Binary(operator, a, b)),
        (Head::Tuple, items) => Some(Shape::Tuple(forms_unless_empty(items)?)),
        (Head::At, [tuple, place]) => tuple_item_shape(tuple, place),
        (Head::List, [ty, items @ ..]) => Some(Shape::List(ty, items)),
        (Head::For, [clauses, body]) => for_shape(clauses, body),
        (Head::Fold, parts) => fold_shape(parts),
        (Head::Map, [key, value]) => Some(Shape::Map(read_key_type(key)?, value)),
        (Head::Put, [map, key, value]) => Some(Shape::Put(map, key, value)),
        (Head::Call, [operation, arguments @ ..]) => {
            Some(Shape::Call(word_of(operation)?, arguments))
        }
        _ => None,
    }
}

fn expression_shape_of_node(has_maps: bool, parts: &[Form]) -> Option<Shape<'_>>
    ensures { shown_option result ≡ spec.node_shape has_maps parts.now }
{
    let (first, parts) = parts.split_first()?;
    let word = word_of(first)?;
    match head_of(has_maps, word.as_str()) {
        Some(head) => expression_shape_by_head(head, parts),
        None => if is_usable_name(has_maps, word) {
            Some(Shape::Apply(word, parts))
        } else {
            None
        },
    }
}

/// Which form of expression a tree has, in the language with or without maps.
#[tactic(auto, unfolding(crate::specs::Shape::shape_of))]
pub fn shape_of(has_maps: bool, form: &Form) -> Option<Shape<'_>>
    ensures { shown_option result ≡ spec.shape_of has_maps form.now }
{
    match form {
        Form::Word(word) => expression_shape_of_word(has_maps, word),
        Form::Text(text) => Some(Shape::Quoted(text)),
        Form::Node(parts) => expression_shape_of_node(has_maps, parts.as_slice()),
    }
}

/// A type, whose parts are trees yet.
#[derive(Drop)]
pub enum TyShape<'a> {
    Int,
    Bool,
    Text,
    Call,
    Tuple(&'a [Form]),
    List(&'a Form),
    Map(KeyTy, &'a Form),
    Ref(&'a Form),
}

/// A clause, whose parts are trees yet.
#[derive(Drop)]
pub enum ClauseShape<'a> {
    In(&'a Text, &'a Form),
    When(&'a Form),
}

fn type_shape_of_word(word: &str) -> Option<TyShape<'_>>
    ensures { shown_ty_option result ≡ spec.ty_word word.now }
{
    if word == "int" {
        Some(TyShape::Int)
    } else if word == "bool" {
        Some(TyShape::Bool)
    } else if word == "text" {
        Some(TyShape::Text)
    } else if word == "call" {
        Some(TyShape::Call)
    } else {
        None
    }
}

fn type_shape_of_node(has_maps: bool, parts: &[Form]) -> Option<TyShape<'_>>
    ensures { shown_ty_option result ≡ spec.ty_node has_maps parts.now }
{
    let (first, parts) = parts.split_first()?;
    match (head_of(has_maps, word_of(first)?.as_str())?, parts) {
        (Head::Tuple, types) => Some(TyShape::Tuple(forms_unless_empty(types)?)),
        (Head::List, [ty]) => Some(TyShape::List(ty)),
        (Head::Map, [key, value]) => Some(TyShape::Map(read_key_type(key)?, value)),
        (Head::Ref, [ty]) => Some(TyShape::Ref(ty)),
        _ => None,
    }
}

/// Which form of type a tree has, in the language with or without maps.
#[tactic(auto, unfolding(crate::specs::Shape::ty_shape))]
pub fn ty_shape(has_maps: bool, form: &Form) -> Option<TyShape<'_>>
    ensures { shown_ty_option result ≡ spec.ty_shape has_maps form.now }
{
    match form {
        Form::Word(word) => type_shape_of_word(word.as_str()),
        Form::Text(_) => None,
        Form::Node(parts) => type_shape_of_node(has_maps, parts.as_slice()),
    }
}

fn clause_shape_of_node(parts: &[Form]) -> Option<ClauseShape<'_>>
    ensures { shown_clause_option result ≡ spec.clause_node parts.now }
{
    let (first, parts) = parts.split_first()?;
    match (head_of(false, word_of(first)?.as_str())?, parts) {
        (Head::In, [name, list]) => Some(ClauseShape::In(word_of(name)?, list)),
        (Head::When, [test]) => Some(ClauseShape::When(test)),
        _ => None,
    }
}

/// Which form of clause a tree has, in both languages.
#[tactic(auto, unfolding(crate::specs::Shape::clause_shape))]
pub fn clause_shape(form: &Form) -> Option<ClauseShape<'_>>
    ensures { shown_clause_option result ≡ spec.clause_shape form.now }
{
    clause_shape_of_node(node_of(form)?)
}

/// Whether the number that digits spell is not 0.
fn is_nonzero(digits: &[u8]) -> bool
    ensures { result ≡ nat_lt 0 (magnitude 0 digits.now) }
{
    match magnitude_of(digits) {
        Some(number) => number != 0,
        None => true,
    }
}

#[tactic(auto, unfolding(pst_sexpr::specs::Integers::value))]
fn is_positive_integer_word(word: &[u8]) -> bool
    ensures { result ≡ places.is_positive (value word.now) }
{
    match word {
        [] => false,
        [first, ..] => *first != b'-' && is_nonzero(word),
    }
}

/// Whether a word is the place of an item of a tuple: an integer from 1 on, of any size.
fn is_tuple_place(word: &Text) -> bool
    ensures { result ≡ places.is_place word.now }
{
    is_integer(word) && is_positive_integer_word(word.as_bytes())
}
