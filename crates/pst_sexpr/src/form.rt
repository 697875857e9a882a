//! Trees: their form, trees that have a spelling, and functions that make trees and take them apart.
ghost use Rattle.std.specs.Prelude.{◌≡◌, ◌<◌, IfOk, length, map, option_copied, [], ◌∷◌};
ghost use Rattle.pst_sexpr.specs.Grammar.{IsWordBytes};
ghost use Rattle.pst_sexpr.specs.Lawful.{IsTree, IsTextBytes, greatest, levels};
ghost use Rattle.pst_sexpr.specs.Reading.{max_levels};
ghost use Rattle.pst_sexpr.specs.Parts as spec;
ghost use Rattle.pst_sexpr.specs.Parts.{headed};
ghost use Rattle.pst_sexpr.specs.declared.form.Form.TheVariants.{Word};

use pst_value::{Items, Text};
use std::alloc::{AllocError, Global};
use std::marker::Model;

/// A tree: a word, a text, or a node of trees.
///
/// A `Form` may have no spelling, as a word with a space in it. One in a `Tree` has one.
#[derive(Debug, PartialEq, Eq, Drop)]
pub enum Form {
    /// Bytes without space, quote, bracket and `;`.
    Word(Text),
    /// The bytes between the quotes, each `\` that escapes left out.
    Text(Text),
    /// The trees between the brackets.
    Node(Items<Form>),
}

/// A tree that has a spelling and is at most `MAX_LEVELS` nodes deep.
#[derive(Debug, Drop)]
pub struct Tree {
    form: Form,
}

impl Model for Tree {
    ghost use Rattle.pst_sexpr.specs.declared.form.Form.{Form};

    ghost Value = { Form };

    ghost use Rattle.pst_sexpr.specs.contracts.form.Form as coding;
    ghost use Rattle.std.specs.Coded.{codes};

    ghost coded = { Prim.hlevel (codes, coding.the_row.coded) };

    ghost use Rattle.pst_sexpr.specs.Lawful.{IsTree};

    ghost view = { λ tree. tree.form };

    ghost invariant = { λ tree. IsTree tree.form };
}

impl Tree {
    /// The tree of a form that has a spelling.
    pub fn new(form: Form) -> Tree
        requires { IsTree form }
        ensures { result ≡ form }
    {
        Tree { form }
    }

    /// A word. It has at least one byte, and each is a word byte.
    #[tactic(auto, using(crate::proofs::Made::word_is_tree))]
    pub fn word(bytes: Text) -> Tree
        requires some { 0 < length bytes }
        requires each { IsWordBytes bytes }
        ensures { result ≡ Form.Word bytes }
    {
        Tree {
            form: Form::Word(bytes),
        }
    }

    /// A text. Each of its bytes is one of 32 to 126.
    #[tactic(auto, using(crate::proofs::Made::text_is_tree))]
    pub fn text(bytes: Text) -> Tree
        requires { IsTextBytes bytes }
        ensures { result ≡ Form.Text bytes }
    {
        Tree {
            form: Form::Text(bytes),
        }
    }

    /// A node of trees, each at most `MAX_LEVELS - 1` nodes deep.
    pub fn node(alloc: Global, trees: Vec<Tree>) -> Result<Tree, AllocError>
        requires { greatest (map levels trees.items) < max_levels }
        ensures { IfOk result (λ tree. tree ≡ Form.Node trees.items) }
    {
        let mut forms = Items::new(alloc);
        for tree in trees {
            forms.push(tree.into_form())?;
        }
        Ok(Tree {
            form: Form::Node(forms),
        })
    }

    /// The form of the tree.
    pub fn form(&self) -> &Form
        ensures same { result.now ≡ self.now }
        ensures lawful { IsTree self.now }
    {
        &self.form
    }

    /// The form of the tree. Takes no memory.
    pub fn into_form(self) -> Form
        ensures same { result ≡ self }
        ensures lawful { IsTree self }
    {
        let Tree { form } = self;
        form
    }
}

/// The bytes of a word, or `None` if the tree is a text or a node.
pub fn word_of(form: &Form) -> Option<&Text>
    ensures { option_copied result ≡ spec.word_of form.now }
{
    match form {
        Form::Word(word) => Some(word),
        Form::Text(_) | Form::Node(_) => None,
    }
}

/// The trees of a node, or `None` if the tree is a word or a text.
pub fn node_of(form: &Form) -> Option<&[Form]>
    ensures { option_copied result ≡ spec.node_of form.now }
{
    match form {
        Form::Node(parts) => Some(parts.as_slice()),
        Form::Text(_) | Form::Word(_) => None,
    }
}

/// The tree at `path` in a tree, if there is one: the number of a part, from 0, and then a path in this part.
pub fn tree_in<'a>(form: &'a Form, path: &[usize]) -> Option<&'a Form>
    ensures { option_copied result ≡ spec.tree_in path.now form.now }
{
    let Some((number, path)) = path.split_first() else {
        return Some(form);
    };
    tree_in(node_of(form)?.get(*number)?, path)
}

/// A word of these bytes.
pub fn word(alloc: Global, text: &str) -> Result<Form, AllocError>
    ensures { IfOk result (λ form. form ≡ Word text.now) }
{
    Ok(Form::Word(Text::from_string(String::from_str(alloc, text)?)))
}

/// A list of one tree.
pub fn list_of_one_form(alloc: Global, first: Form) -> Result<Items<Form>, AllocError>
    ensures { IfOk result (λ forms. forms ≡ first ∷ []) }
{
    let mut forms = Items::new(alloc);
    forms.push(first)?;
    Ok(forms)
}

/// A node of the word `head` and then `parts`.
pub fn headed(alloc: Global, head: &str, parts: Items<Form>) -> Result<Form, AllocError>
    ensures { IfOk result (λ form. form ≡ headed head.now parts) }
{
    let mut all = list_of_one_form(alloc, word(alloc, head)?)?;
    all.append(parts)?;
    Ok(Form::Node(all))
}
