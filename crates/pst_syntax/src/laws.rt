//! Laws of models and of their reading.

ghost use Rattle.pst_model.specs.Language.{KeepsLanguage};
ghost use Rattle.pst_model.specs.Operations.{HasOperations};
ghost use Rattle.pst_model.specs.declared.model.Source.{Source};
ghost use Rattle.pst_sexpr.specs.declared.form.Form.{Form};
ghost use Rattle.std.specs.Prelude.{◌≡◌, ℕ, Bool, List};
ghost use Rattle.pst_syntax.specs.ModelFaults.{model_faults};
ghost use Rattle.pst_syntax.specs.Reading.{expr_of, ty_of};
ghost use Rattle.pst_syntax.specs.Faults.{expr_faults, ty_faults, first, refusal};
ghost use Rattle.pst_syntax.specs.Items.{IsModel, HasItems, model_of};

/// A model has one state, one init and one command, and at most 64 functions and 64 operations.
pub fn model_item_counts_are_lawful()
    ensures { (source : Source) → IsModel source → HasItems source.items }
{}

/// Each operation of a model is the first of its name, which is a name, and its types have at most 16 levels.
pub fn model_operations_are_lawful()
    ensures { (source : Source) → IsModel source → HasOperations source.items }
{}

/// The operations of a model headed `model` have no map among their types.
pub fn plain_model_types_have_no_maps()
    ensures { (source : Source) → IsModel source → KeepsLanguage source }
{}

/// An expression is refused by the first of its faults, and read if it has none.
pub fn expression_is_refused_by_first_fault()
    ensures { (has_maps : Bool) (room : ℕ) (form : Form) →
        refusal (expr_of has_maps room form) ≡ first (expr_faults has_maps room form) }
{}

/// A type is refused by the first of its faults, and read if it has none.
pub fn type_is_refused_by_first_fault()
    ensures { (has_maps : Bool) (room : ℕ) (form : Form) →
        refusal (ty_of has_maps room form) ≡ first (ty_faults has_maps room form) }
{}

/// A model is refused by the first of its faults, and read if it has none.
pub fn model_is_refused_by_first_fault()
    ensures { (trees : List Form) → refusal (model_of trees) ≡ first (model_faults trees) }
{}
