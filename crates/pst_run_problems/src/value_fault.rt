//! The first fault in an argument or a reply. The reader of runs says which trees have one.
ghost use Rattle.std.specs.Prelude.{◌≡◌, ◌∷◌, true, IfOk, option_copied, option_map, Option};
ghost use Rattle.std.specs.Option.{is_none};
ghost use Rattle.pst_run_problems.specs.ValuePlaces as spec;
ghost use Rattle.pst_value.specs.declared.key.Key.{Key};
ghost use Rattle.pst_value.specs.declared.key.KeyTy.{KeyTy};

use crate::command::{Part, command_number_of_variable, result_type_of_command};
use crate::entries::{fault_of_first_bad_map_entry_or_key, is_bool_word};
use crate::value_problem::ValueFault;
use pst_model::{Param, Source};
use pst_runs::{Spelling, read_value};
use pst_sexpr::{Form, is_integer, word_of};
use pst_value::{Items, KeyTy, Ty};
use std::alloc::{AllocError, Global};

/// What a tree has to spell.
#[derive(Clone, Copy, Drop)]
pub enum Wanted<'a> {
    /// A value without variables, as in a reply.
    Any,
    /// A value of the type, as in an argument.
    Type(&'a Ty),
}

/// What the trees in a value or a command have to spell, after its head.
#[derive(Clone, Copy, Drop)]
pub enum WantedTypes<'a> {
    /// Each tree has to spell this.
    Same(Wanted<'a>),
    /// The items of a tuple.
    Items(&'a [Ty]),
    /// The arguments of an operation.
    Params(&'a [Param]),
    /// The entries of a map: the type of the keys, if one is wanted, and what each value has to be.
    Entries(Option<KeyTy>, Wanted<'a>),
}

/// A search in the values of a case: its model, its parts, and the types of the results of its commands.
#[derive(Clone, Copy, Drop)]
pub struct ValueSearch<'a> {
    pub source: &'a Source,
    pub parts: &'a [Part<'a>],
    pub results: &'a [Ty],
}

/// A fault in a value, and the numbers that lead to it from the tree of the value.
#[derive(Drop)]
pub struct FoundValueFault<'a> {
    pub path: Items<usize>,
    pub fault: ValueFault<'a>,
}

/// Whether the reader accepts a tree where `wanted` is wanted.
pub fn is_accepted_value(
    alloc: Global,
    search: &ValueSearch<'_>,
    form: &Form,
    wanted: Wanted<'_>,
) -> Result<bool, AllocError>
    ensures { IfOk result (λ accepted. accepted ≡ spec.accepts search.now.source.now
        search.now.results.now (spec.type_of wanted.entry) form.now) }
{
    let has_maps = search.source.has_maps;
    match wanted {
        Wanted::Any => {
            let symbolic = false;
            let value = read_value(alloc, form, Spelling { has_maps, symbolic })?;
            Ok(value.is_some())
        }
        Wanted::Type(ty) => {
            let symbolic = true;
            match read_value(alloc, form, Spelling { has_maps, symbolic })? {
                Some(value) => Ok(value.has_type(ty, search.results, &[])),
                None => Ok(false),
            }
        }
    }
}

/// Whether `word` heads the trees.
fn begins_with_head_word(word: &str, trees: &[Form]) -> bool
    ensures { result ≡ spec.heads word.now trees.now }
{
    let Some((first, _)) = trees.split_first() else {
        return false;
    };
    match word_of(first) {
        Some(head) => head.as_str() == word,
        None => false,
    }
}

/// The trees after the first one.
pub fn trees_after_head(trees: &[Form]) -> &[Form]
    ensures { result.now ≡ spec.after_head trees.now }
{
    match trees.split_first() {
        Some((_, others)) => others,
        None => &[],
    }
}

/// What the trees in a reply have to spell. `None` if the head is wrong.
fn types_wanted_in_any_value<'a>(source: &Source, trees: &[Form]) -> Option<WantedTypes<'a>>
    ensures { option_map spec.parts_in result ≡ spec.parts_of_any source.now trees.now }
{
    if begins_with_head_word("tuple", trees) || begins_with_head_word("list", trees) {
        Some(WantedTypes::Same(Wanted::Any))
    } else if source.has_maps && begins_with_head_word("map", trees) {
        Some(WantedTypes::Entries(None, Wanted::Any))
    } else {
        None
    }
}

/// What the trees in a value of the type `ty` have to spell. `None` if the head or their number is wrong.
fn types_wanted_in_value_of_type<'a>(ty: &'a Ty, trees: &[Form]) -> Option<WantedTypes<'a>>
    ensures { option_map spec.parts_in result ≡ spec.parts_of_type ty.now trees.now }
{
    match ty {
        Ty::Tuple(items) => {
            if items.len() == trees_after_head(trees).len()
                && begins_with_head_word("tuple", trees)
            {
                Some(WantedTypes::Items(items.as_slice()))
            } else {
                None
            }
        }
        Ty::List(item) => {
            if begins_with_head_word("list", trees) {
                Some(WantedTypes::Same(Wanted::Type(item.get())))
            } else {
                None
            }
        }
        Ty::Map(kind, value) => {
            if begins_with_head_word("map", trees) {
                Some(WantedTypes::Entries(Some(*kind), Wanted::Type(value.get())))
            } else {
                None
            }
        }
        _ => None,
    }
}

/// What the trees in a value have to spell. `None` if the head or their number is wrong.
fn types_wanted_in_value<'a>(
    source: &Source,
    trees: &[Form],
    wanted: Wanted<'a>,
) -> Option<WantedTypes<'a>>
    ensures { option_map spec.parts_in result ≡
        spec.parts_of source.now (spec.type_of wanted.entry) trees.now }
{
    match wanted {
        Wanted::Any => types_wanted_in_any_value(source, trees),
        Wanted::Type(ty) => types_wanted_in_value_of_type(ty, trees),
    }
}

/// Whether `word` is a variable that names a command whose result has the type `wanted`.
fn is_variable_for_result_of_type(search: &ValueSearch<'_>, word: &str, wanted: &Ty) -> bool {
    let Some(command) = command_number_of_variable(word) else {
        return false;
    };
    match result_type_of_command(search.source, search.parts, command) {
        Some(ty) => ty == wanted,
        None => false,
    }
}

/// Whether a refused word or text is of the kind that the type `wanted` has.
fn is_word_or_text_of_type(search: &ValueSearch<'_>, form: &Form, wanted: &Ty) -> bool {
    match (form, wanted) {
        (Form::Word(word), Ty::Int) => is_integer(word),
        (Form::Word(word), Ty::Bool) => is_bool_word(word.as_str()),
        (Form::Word(word), Ty::Ref(named)) => is_variable_for_result_of_type(
            search,
            word.as_str(),
            named.get(),
        ),
        (Form::Text(_), Ty::Text) => true,
        _ => false,
    }
}

/// Whether a refused tree looks as `wanted` does: a limit refuses it, or a rule that the messages do not know.
fn has_outer_form_of_wanted_value(
    search: &ValueSearch<'_>,
    form: &Form,
    wanted: Wanted<'_>,
) -> bool {
    match (form, wanted) {
        (Form::Node(trees), _) => types_wanted_in_value(
            search.source,
            trees.as_slice(),
            wanted,
        ).is_some(),
        (Form::Word(word), Wanted::Any) => is_integer(word),
        (_, Wanted::Type(ty)) => is_word_or_text_of_type(search, form, ty),
        _ => false,
    }
}

/// The fault of a tree that is refused where `wanted` is wanted, and in which no tree is refused.
fn value_fault_of_refused_tree<'a>(
    search: &ValueSearch<'_>,
    form: &'a Form,
    wanted: Wanted<'a>,
) -> ValueFault<'a> {
    if has_outer_form_of_wanted_value(search, form, wanted) {
        return ValueFault::Unnamed;
    }
    match wanted {
        Wanted::Type(ty) => ValueFault::OtherType(form, ty),
        Wanted::Any => ValueFault::Tree {
            before: "",
            form,
            after: " is not a value",
        },
    }
}

/// The fault `found`, led to from a tree in which it is below tree `number`.
fn prepend_tree_number_to_path<'a>(
    found: FoundValueFault<'a>,
    number: usize,
) -> Result<FoundValueFault<'a>, AllocError>
    ensures { IfOk result (λ led. led.path ≡ number ∷ found.entry.path) }
{
    let FoundValueFault { mut path, fault } = found;
    path.insert(0, number)?;
    Ok(FoundValueFault { path, fault })
}

/// The first fault in a tree that has to spell `wanted`. Each tree comes before those in it, and these come from left to
/// right. A fault that has no name comes after all others.
#[cycle(first_value_fault)]
pub fn first_value_fault<'a>(
    alloc: Global,
    search: &ValueSearch<'_>,
    form: &'a Form,
    wanted: Wanted<'a>,
) -> Result<Option<FoundValueFault<'a>>, AllocError>
    ensures none { IfOk result (λ found. is_none found ≡ spec.accepts search.now.source.now
        search.now.results.now (spec.type_of wanted.entry) form.now) }
    ensures place { IfOk result (λ found. spec.is_led search.now.source.now search.now.results.now
        (spec.IsValue (spec.type_of wanted.entry)) form.now found ≡ true) }
{
    if is_accepted_value(alloc, search, form, wanted)? {
        return Ok(None);
    }
    if let Form::Node(trees) = form {
        if let Some(types) = types_wanted_in_value(search.source, trees.as_slice(), wanted) {
            if let Some(found) = first_value_fault_after_head(
                alloc,
                search,
                trees.as_slice(),
                types,
            )? {
                return Ok(Some(found));
            }
        }
    }
    let fault = value_fault_of_refused_tree(search, form, wanted);
    let path = Items::new(alloc);
    Ok(Some(FoundValueFault { path, fault }))
}

/// The first fault in the trees of a value, or in those of a command. The entries and keys of a map come before its values.
#[cycle(first_value_fault)]
pub fn first_value_fault_after_head<'a>(
    alloc: Global,
    search: &ValueSearch<'_>,
    trees: &'a [Form],
    types: WantedTypes<'a>,
) -> Result<Option<FoundValueFault<'a>>, AllocError>
    ensures { IfOk result (λ found. spec.is_led_in search.now.source.now search.now.results.now
        (spec.parts_in types.entry) trees.now found ≡ true) }
{
    if let WantedTypes::Entries(kind, _) = types {
        if let Some(found) = fault_of_first_bad_map_entry_or_key(alloc, trees, kind)? {
            return Ok(Some(found));
        }
    }
    let mut unnamed = None;
    for number in 1..trees.len() {
        if let Some(found) = value_fault_at_tree_number(alloc, search, trees, types, number)? {
            if !matches!(found.fault, ValueFault::Unnamed) {
                return Ok(Some(found));
            }
            if unnamed.is_none() {
                unnamed = Some(found);
            }
        }
    }
    Ok(unnamed)
}

/// The first fault in tree `number` of a value. In an entry of a map, it checks the value only.
#[cycle(first_value_fault)]
fn value_fault_at_tree_number<'a>(
    alloc: Global,
    search: &ValueSearch<'_>,
    trees: &'a [Form],
    types: WantedTypes<'a>,
    number: usize,
) -> Result<Option<FoundValueFault<'a>>, AllocError>
    ensures { IfOk result (λ found. spec.is_led_in search.now.source.now search.now.results.now
        (spec.parts_in types.entry) trees.now found ≡ true) }
{
    if number == 0 || number >= trees.len() {
        return Ok(None);
    }
    let tree = &trees[number];
    let found = match types {
        WantedTypes::Same(wanted) => first_value_fault(alloc, search, tree, wanted)?,
        WantedTypes::Items(items) => match items.get(number - 1) {
            Some(item) => first_value_fault(alloc, search, tree, Wanted::Type(item))?,
            None => None,
        },
        WantedTypes::Params(params) => match params.get(number - 1) {
            Some(param) => first_value_fault(alloc, search, tree, Wanted::Type(&param.ty))?,
            None => None,
        },
        WantedTypes::Entries(_, wanted) => first_fault_in_map_entry_value(
            alloc, search, tree, wanted,
        )?,
    };
    match found {
        Some(found) => Ok(Some(prepend_tree_number_to_path(found, number)?)),
        None => Ok(None),
    }
}

/// The first fault in the value of an entry of a map.
#[cycle(first_value_fault)]
fn first_fault_in_map_entry_value<'a>(
    alloc: Global,
    search: &ValueSearch<'_>,
    entry: &'a Form,
    wanted: Wanted<'a>,
) -> Result<Option<FoundValueFault<'a>>, AllocError>
    ensures { IfOk result (λ found. (kind : Option KeyTy) (before : Option Key) →
        spec.is_led search.now.source.now search.now.results.now
        (spec.IsEntry kind before (spec.type_of wanted.entry)) entry.now found ≡ true) }
{
    let found = match entry {
        Form::Node(pair) => match pair.as_slice() {
            [_, value] => first_value_fault(alloc, search, value, wanted)?,
            _ => None,
        },
        _ => None,
    };
    match found {
        Some(found) => Ok(Some(prepend_tree_number_to_path(found, 1)?)),
        None => Ok(None),
    }
}
