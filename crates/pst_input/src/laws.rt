//! Laws of what inputs mean: each is the contract of an empty function.
ghost use Rattle.std.specs.Prelude.{◌≡◌, ℕ, true, List, None, Some, take};
ghost use Rattle.pst_input.specs.Lines.{has_first_tree, json_start};
ghost use Rattle.pst_input.specs.Meaning.{Means};
ghost use Rattle.pst_model.specs.declared.model.Source.{Source};
ghost use Rattle.pst_sexpr.specs.declared.form.Form.{Form};
ghost use Rattle.pst_typing.specs.Loading.{Holds};

use pst_sexpr::laws::{bytes_have_one_reading, bytes_with_trees_have_no_fault};
use pst_typing::ill_typed_item_makes_model_ill_typed;

/// An input has one meaning at most.
pub fn each_input_has_one_meaning()
    ensures { (input plain other : List ℕ) → Means input plain → Means input other → plain ≡ other }
{
    bytes_have_one_reading();
    bytes_with_trees_have_no_fault();
    ill_typed_item_makes_model_ill_typed();
}

/// An input in which no line begins with `{` means itself, and nothing else.
pub fn inputs_without_json_mean_themselves()
    ensures itself { (input : List ℕ) → json_start input ≡ None → Means input input }
    ensures alone { (input plain : List ℕ) → json_start input ≡ None → Means input plain → plain ≡ input }
{}

/// A well-typed model before the first line that begins with `{` ends before this line: the items as JSON begin there.
pub fn models_end_before_json_items()
    ensures { (input : List ℕ) (at : ℕ) (m : Source) (trees : List Form) → json_start input ≡ Some at
        → Holds (take at input) m trees → has_first_tree (take at input) ≡ true }
{}
