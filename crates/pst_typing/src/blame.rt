//! Why an expression has no type: refusals, the parts to blame, and what is gathered of the parts.
ghost use Rattle.std.specs.Prelude.{◌≡◌, ◌++◌, map, take, IfOk};
ghost use Rattle.pst_typing.specs.Gathering as spec;

use crate::kinds::Kind;
use crate::operators::item_type;
use pst_value::Items;
use std::alloc::{AllocError, Global};

/// A part of an expression that has no type, though its own parts have one.
#[derive(Drop)]
pub struct Blame {
    /// The number of a part, from 0, then that of a part of this one, and so on.
    pub path: Items<usize>,
    /// The kinds of the parts of the one that is to blame.
    pub kinds: Items<Kind>,
}

/// What an expression is found to be.
#[derive(Drop)]
pub enum Found {
    /// Well typed, of a kind.
    Kind(Kind),
    /// Ill-typed: the parts that are to blame, from left to right. There is at least one.
    Blamed(Items<Blame>),
}

/// Why an expression is given no type.
#[derive(Debug, Drop)]
pub enum Refusal {
    /// It is not well typed.
    Ill,
    /// An allocation failed.
    NoMemory,
}

impl From<AllocError> for Refusal {
    ghost use Rattle.std.specs.Prelude.{◌≡◌};
    ghost use Rattle.pst_typing.specs.declared.blame.Refusal.TheVariants.{NoMemory};

    ghost from_gives = { λ _ e. e ≡ NoMemory };

    fn from(_: AllocError) -> Refusal {
        Refusal::NoMemory
    }
}

/// How many blames are kept. A message shows 20 problems, and says whether there are more.
const MOST_BLAMES: usize = 32;

/// What is known of the parts of an expression, from left to right.
#[derive(Drop)]
pub struct Gathered {
    /// How many parts there are.
    pub number: usize,
    /// The kinds of those that have one.
    pub kinds: Items<Kind>,
    /// What is to blame in the others.
    pub blames: Items<Blame>,
}

impl Gathered {
    /// No part is known.
    pub fn new(alloc: Global) -> Gathered
        ensures { result ≡ spec.nothing }
    {
        Gathered {
            number: 0,
            kinds: Items::new(alloc),
            blames: Items::new(alloc),
        }
    }

    /// One part more is known.
    pub fn with_found_part(self, alloc: Global, found: Found) -> Result<Gathered, AllocError>
        ensures { IfOk result (λ all. all ≡ spec.with_found self found) }
    {
        let Gathered {
            number,
            mut kinds,
            mut blames,
        } = self;
        match found {
            Found::Kind(kind) => kinds.push(kind)?,
            Found::Blamed(more) => blames = append_part_blames_up_to_limit(
                alloc, blames, number, more,
            )?,
        }
        match number.checked_add(1) {
            Some(number) => Ok(Gathered {
                number,
                kinds,
                blames,
            }),
            None => Err(AllocError),
        }
    }
}

/// The first `MOST_BLAMES` of `blames` and then `more`, which are the blames within part `number`.
fn append_part_blames_up_to_limit(
    alloc: Global,
    blames: Items<Blame>,
    number: usize,
    more: Items<Blame>,
) -> Result<Items<Blame>, AllocError>
    ensures { IfOk result (λ all. all ≡ take spec.most_blames (blames ++ map (spec.inside number) more)) }
{
    let mut all = blames;
    for blame in more.into_vec() {
        all.push(blame_within_part(alloc, number, blame)?)?;
    }
    let mut all = all.into_vec();
    all.truncate(MOST_BLAMES);
    Ok(Items::from_vec(all))
}

/// A blame within part `number`, as a blame within the whole.
fn blame_within_part(alloc: Global, number: usize, blame: Blame) -> Result<Blame, AllocError>
    ensures { IfOk result (λ outer. outer ≡ spec.inside number blame) }
{
    let Blame { path: inner, kinds } = blame;
    let mut path = Items::new(alloc);
    path.push(number)?;
    path.append(inner)?;
    Ok(Blame { path, kinds })
}

/// The kind of the items of what is found, if that is a list.
pub fn item_kind_if_list(alloc: Global, found: &Found) -> Result<Option<Kind>, AllocError>
    ensures { IfOk result (λ item. item ≡ spec.item_in found.now) }
{
    let Found::Kind(list) = found else {
        return Ok(None);
    };
    match item_type(alloc, list) {
        Ok(item) => Ok(Some(item)),
        Err(Refusal::Ill) => Ok(None),
        Err(Refusal::NoMemory) => Err(AllocError),
    }
}
