//! What a tree is as an item, a callback or a parameter, one level deep.

ghost use Rattle.std.specs.Prelude.{◌≡◌};
ghost use Rattle.pst_syntax.specs.ItemShape as spec;
ghost use Rattle.pst_syntax.specs.ShownItems.{shown_item_option, shown_callback_option, shown_param_option, shown_model_option};

use pst_sexpr::{Form, node_of, word_of};
use pst_value::Text;

/// An item, whose parts are trees yet.
#[derive(Drop)]
pub enum ItemShape<'a> {
    State(&'a Form),
    Init(&'a Form),
    Command(&'a Form),
    Fun(FunShape<'a>),
    Op(OpShape<'a>),
}

/// A function, whose parts are trees yet.
#[derive(Drop)]
pub struct FunShape<'a> {
    pub is_post: bool,
    pub name: &'a Text,
    pub params: &'a [Form],
    pub result: &'a Form,
    pub body: &'a Form,
}

/// An operation, whose parts are trees yet.
#[derive(Drop)]
pub struct OpShape<'a> {
    pub name: &'a Text,
    pub params: &'a [Form],
    pub result: &'a Form,
    pub callbacks: &'a [Form],
}

/// A callback, whose expression is a tree yet.
#[derive(Drop)]
pub enum CallbackShape<'a> {
    Pre(&'a Form),
    Next(&'a Form),
    Post(&'a Form),
}

/// A parameter, whose type is a tree yet.
#[derive(Drop)]
pub struct ParamShape<'a> {
    pub name: &'a Text,
    pub ty: &'a Form,
}

/// A model, whose items are trees yet.
#[derive(Drop)]
pub struct ModelShape<'a> {
    /// Whether its language has maps.
    pub has_maps: bool,
    pub name: &'a Text,
    pub items: &'a [Form],
}

fn fun_shape(is_post: bool, parts: &[Form]) -> Option<ItemShape<'_>>
    ensures { shown_item_option result ≡ spec.as_fun is_post parts.now }
{
    let [name, params, result, body] = parts else {
        return None;
    };
    let name = word_of(name)?;
    let params = node_of(params)?;
    Some(ItemShape::Fun(FunShape {
        is_post,
        name,
        params,
        result,
        body,
    }))
}

fn op_shape(parts: &[Form]) -> Option<ItemShape<'_>>
    ensures { shown_item_option result ≡ spec.as_op parts.now }
{
    let [name, params, result, callbacks @ ..] = parts else {
        return None;
    };
    let name = word_of(name)?;
    let params = node_of(params)?;
    Some(ItemShape::Op(OpShape {
        name,
        params,
        result,
        callbacks,
    }))
}

fn state_shape(parts: &[Form]) -> Option<ItemShape<'_>>
    ensures { shown_item_option result ≡ spec.single parts.now spec.StateItem }
{
    let [ty] = parts else { return None };
    Some(ItemShape::State(ty))
}

fn init_shape(parts: &[Form]) -> Option<ItemShape<'_>>
    ensures { shown_item_option result ≡ spec.single parts.now spec.InitItem }
{
    let [value] = parts else { return None };
    Some(ItemShape::Init(value))
}

fn command_shape(parts: &[Form]) -> Option<ItemShape<'_>>
    ensures { shown_item_option result ≡ spec.single parts.now spec.CommandItem }
{
    let [calls] = parts else { return None };
    Some(ItemShape::Command(calls))
}

fn item_shape_by_head<'a>(word: &str, parts: &'a [Form]) -> Option<ItemShape<'a>>
    ensures { shown_item_option result ≡ spec.item_headed word.now parts.now }
{
    match word {
        "state" => state_shape(parts),
        "init" => init_shape(parts),
        "command" => command_shape(parts),
        "fun" => fun_shape(false, parts),
        "postfun" => fun_shape(true, parts),
        "op" => op_shape(parts),
        _ => None,
    }
}

/// Which form of item a tree has.
#[tactic(auto, unfolding(crate::specs::ItemShape::item_shape))]
pub fn item_shape(form: &Form) -> Option<ItemShape<'_>>
    ensures { shown_item_option result ≡ spec.item_shape form.now }
{
    let (first, parts) = node_of(form)?.split_first()?;
    item_shape_by_head(word_of(first)?.as_str(), parts)
}

fn callback_shape_by_head<'a>(word: &str, body: &'a Form) -> Option<CallbackShape<'a>>
    ensures { shown_callback_option result ≡ spec.callback_headed word.now body.now }
{
    if word == "pre" {
        Some(CallbackShape::Pre(body))
    } else if word == "next" {
        Some(CallbackShape::Next(body))
    } else if word == "post" {
        Some(CallbackShape::Post(body))
    } else {
        None
    }
}

/// Which callback a tree has the form of.
#[tactic(auto, unfolding(crate::specs::ItemShape::callback_shape))]
pub fn callback_shape(form: &Form) -> Option<CallbackShape<'_>>
    ensures { shown_callback_option result ≡ spec.callback_shape form.now }
{
    let [first, body] = node_of(form)? else {
        return None;
    };
    callback_shape_by_head(word_of(first)?.as_str(), body)
}

/// The name and the type of a parameter.
#[tactic(auto, unfolding(crate::specs::ItemShape::param_shape))]
pub fn param_shape(form: &Form) -> Option<ParamShape<'_>>
    ensures { shown_param_option result ≡ spec.param_shape form.now }
{
    let [name, ty] = node_of(form)? else {
        return None;
    };
    Some(ParamShape {
        name: word_of(name)?,
        ty,
    })
}

/// Whether the language that a word heads has maps.
fn model_head_has_maps(word: &str) -> Option<bool>
    ensures { result ≡ spec.language word.now }
{
    if word == "model" {
        Some(false)
    } else if word == "model2" {
        Some(true)
    } else {
        None
    }
}

fn model_shape_by_head<'a>(word: &str, parts: &'a [Form]) -> Option<ModelShape<'a>>
    ensures { shown_model_option result ≡ spec.as_model word.now parts.now }
{
    let (name, items) = parts.split_first()?;
    let name = word_of(name)?;
    let has_maps = model_head_has_maps(word)?;
    Some(ModelShape {
        has_maps,
        name,
        items,
    })
}

/// The language of a model, its name and its items.
#[tactic(auto, unfolding(crate::specs::ItemShape::model_shape))]
pub fn model_shape(form: &Form) -> Option<ModelShape<'_>>
    ensures { shown_model_option result ≡ spec.model_shape form.now }
{
    let (first, parts) = node_of(form)?.split_first()?;
    model_shape_by_head(word_of(first)?.as_str(), parts)
}
