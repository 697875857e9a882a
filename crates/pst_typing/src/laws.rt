//! Laws of the decision.
ghost use Rattle.pst_typing.specs.Laws.{FoundIsTyped, TypedIsFound, PassedIsWell, WellIsPassed, NoneIsWell, SomeIsLeast, IllIsNotWell, OneIsIll};

/// The type that is found is the one type that the rules give.
pub fn inferred_type_agrees_with_rules()
    ensures found { FoundIsTyped }
    ensures typed { TypedIsFound }
{}

/// An item passes the test exactly if the rules call it well typed.
pub fn item_check_agrees_with_rules()
    ensures passed { PassedIsWell }
    ensures well { WellIsPassed }
{}

/// The search finds the first item that is not well typed. If it finds none, all items are well typed.
pub fn search_finds_first_ill_typed_item()
    ensures none { NoneIsWell }
    ensures some { SomeIsLeast }
{}

/// A model with an item that is not well typed is not well typed.
pub fn ill_typed_item_makes_model_ill_typed()
    ensures { IllIsNotWell }
{}

/// A model has at most one least item that is not well typed.
pub fn first_ill_typed_item_is_unique()
    ensures { OneIsIll }
{}
