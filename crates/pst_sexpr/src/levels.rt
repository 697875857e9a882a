//! The nodes that are open, the innermost first.

ghost use Rattle.pst_sexpr.specs.declared.levels.Level.{Level};
ghost use Rattle.std.specs.Prelude.{◌≡◌, List, [], ◌∷◌, length, IfOk, OnOk, MatchOption};

use crate::form::Form;
use pst_value::Items;
use std::alloc::{AllocError, Global};
use std::marker::Model;

/// An open node: the place of its bracket, and the trees before it at its level.
#[derive(Drop)]
pub struct Level {
    pub place: usize,
    pub done: Items<Form>,
}

/// The open nodes. Contracts see the innermost first.
///
/// Trees are gathered in lists that are longer than needed, and a node keeps a list of the exact length. The longer
/// ones serve again.
#[derive(Drop)]
pub struct Levels {
    levels: Vec<Level>,
    spare: Vec<Vec<Form>>,
}

impl Model for Levels {
    ghost use Rattle.std.specs.Prelude.{List, reverse};
    ghost use Rattle.pst_sexpr.specs.declared.levels.Level.{Level};

    ghost Value = { List Level };

    ghost use Rattle.pst_sexpr.specs.contracts.form.Form as coding;
    ghost use Rattle.std.specs.Coded.{codes};

    ghost coded = { Prim.hlevel (codes, coding.the_row.coded) };

    ghost view = { λ nodes. reverse nodes.levels.items };
}

impl Levels {
    /// No node. Takes no memory.
    pub fn new(alloc: Global) -> Levels
        ensures { result ≡ [] }
    {
        Levels {
            levels: Vec::new(alloc),
            spare: Vec::new(alloc),
        }
    }

    /// A list of no trees.
    pub fn take_empty_list(&mut self, alloc: Global) -> Items<Form>
        ensures empty { result ≡ [] }
        ensures same { self.new ≡ self.old }
    {
        match self.spare.pop() {
            Some(mut list) => {
                list.clear();
                Items::from_vec(list)
            }
            None => Items::new(alloc),
        }
    }

    /// The list, in a block of memory that has no more room than it needs.
    pub fn move_to_exact_list(
        &mut self,
        alloc: Global,
        list: Items<Form>,
    ) -> Result<Items<Form>, AllocError>
        ensures list { IfOk result (λ exact. exact ≡ list) }
        ensures same { self.new ≡ self.old }
    {
        let mut list = list.into_vec();
        let mut exact = Vec::with_capacity(alloc, list.len())?;
        exact.append(&mut list)?;
        self.spare.push(list)?;
        Ok(Items::from_vec(exact))
    }

    /// How many nodes are open.
    pub fn len(&self) -> usize
        ensures { result ≡ length self.now }
    {
        self.levels.len()
    }

    /// Opens a node in the innermost.
    pub fn push(&mut self, level: Level) -> Result<(), AllocError>
        ensures { OnOk result (self.new ≡ level ∷ self.old) }
    {
        self.levels.push(level)?;
        Ok(())
    }

    /// Closes the innermost node, if there is one.
    pub fn pop(&mut self) -> Option<Level>
        ensures { MatchOption result ((self.old ≡ []) × (self.new ≡ []))
            (λ level. self.old ≡ level ∷ self.new) }
    {
        self.levels.pop()
    }

    /// The place of the innermost node's bracket, if a node is open.
    pub fn innermost_bracket_place(&self) -> Option<usize>
        ensures { MatchOption result (self.now ≡ [])
            (λ place. (level : Level) × (rest : List Level)
            × (self.now ≡ level ∷ rest) × (level.place ≡ place)) }
    {
        match self.levels.last() {
            None => None,
            Some(level) => Some(level.place),
        }
    }
}
