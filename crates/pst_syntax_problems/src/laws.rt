//! Laws of faults with places.

ghost use Rattle.std.specs.Prelude.{◌≡◌, List, map};
ghost use Rattle.pst_sexpr.specs.declared.form.Form.{Form};
ghost use Rattle.pst_syntax_problems.specs.PlacedModel.{placed_faults, unplaced};
ghost use Rattle.pst_syntax.specs.Faults.{first, refusal};
ghost use Rattle.pst_syntax.specs.Items.{model_of};
ghost use Rattle.pst_syntax.specs.ModelFaults.{model_faults};

/// The faults with places are the faults of the model, in their order: each has the kind and the item of that
/// fault.
pub fn placed_faults_are_model_faults()
    ensures { (trees : List Form) → map unplaced (placed_faults trees) ≡ model_faults trees }
{}

/// The reader refuses a model by the first of its faults with places.
pub fn reader_refuses_first_placed_fault()
    ensures { (trees : List Form) → refusal (model_of trees) ≡ first (map unplaced (placed_faults trees)) }
{}
