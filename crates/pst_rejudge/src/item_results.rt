//! What the results of all items come to: the refusal of the first refused item, or the judgements.
ghost use Rattle.std.specs.Prelude.{◌≡◌, IfOk};
ghost use Rattle.pst_rejudge.specs.Answers.{first_refusal, judgements_in};

use crate::reading::ItemResult;
use pst_judge::Judged;
use pst_runs::RunFault;
use std::alloc::{AllocError, Global};

/// Returns why the first refused item is refused, with its number, from 1, or `None` if no item is refused.
pub fn first_refused_item(answers: &[ItemResult]) -> Option<RunFault>
    ensures { result ≡ first_refusal 1 answers.now }
{
    for (index, answer) in answers.iter().enumerate() {
        if let ItemResult::Refused { kind, command } = answer {
            return Some(RunFault {
                run: index + 1,
                command: *command,
                kind: *kind,
            });
        }
    }
    None
}

/// Returns the judgements on the items that are not refused, in the order of the items.
pub fn judgements_of_items(
    alloc: Global,
    answers: Vec<ItemResult>,
) -> Result<Vec<Judged>, AllocError>
    ensures { IfOk result (λ all. all.items ≡ judgements_in answers.items) }
{
    let mut all = Vec::with_capacity(alloc, answers.len())?;
    for answer in answers {
        if let ItemResult::Judged(judged) = answer {
            all.push(judged)?;
        }
    }
    Ok(all)
}
