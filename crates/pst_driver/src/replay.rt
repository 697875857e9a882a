//! One drive of a burst, played in the place of the system that made its calls.
ghost use Rattle.std.specs.Prelude.{◌≡◌, All, IfSome, MatchResult};
ghost use Rattle.pst_system.specs.Bursts.{IsMade, IsMadeDrive};
ghost use Rattle.pst_system.specs.declared.burst.CallEnd.TheVariants.{Answered, Fault};

use crate::subject::{Relations, Subject, SystemWithRelations};
use pst_system::{BurstCase, BurstDrive, CallEnd, CallFault, MadeCall, RealCall};
use pst_value::{Items, Value};
use std::alloc::{AllocError, Global};
use std::marker::{Model, PhantomData};
use std::sync::atomic::{AtomicU64, Ordering};

/// The maximum number of branches of a case.
const MOST_BRANCHES: usize = 4;

/// One drive of a burst, by a system with the relations that `J` names.
#[derive(Drop)]
pub(crate) struct MadeDrive<J: Relations> {
    drive: BurstDrive,
    of: PhantomData<J>,
}

impl<J: Relations> Model for MadeDrive<J> {
    ghost use Rattle.std.specs.Coded.{codes};
    ghost use Rattle.pst_system.specs.Bursts.{IsMadeDrive};
    ghost use Rattle.pst_system.specs.contracts.burst.BurstDrive as drive_coding;
    ghost use Rattle.pst_system.specs.declared.burst.BurstDrive.{BurstDrive};

    ghost Value = { BurstDrive };

    ghost coded = { Prim.hlevel (codes, drive_coding.the_row.coded) };

    ghost view = { λ d. d.drive };

    ghost invariant = { λ d. IsMadeDrive J.answering J.failing d.drive };
}

/// An equal end of a call. `None` if an allocation fails.
fn copy_of_end(alloc: Global, end: &CallEnd) -> Option<Result<Value, CallFault>>
    ensures { IfSome result (λ copy. MatchResult copy (λ v. end.now ≡ Answered v) (λ f. end.now ≡ Fault f)) }
{
    match end {
        CallEnd::Answered(value) => match value.copy(alloc) {
            Ok(value) => Some(Ok(value)),
            Err(AllocError) => None,
        },
        CallEnd::Fault(fault) => Some(Err(*fault)),
    }
}

impl<J: Relations> MadeDrive<J> {
    /// A drive whose calls ended as they may.
    pub(crate) fn new(drive: BurstDrive) -> MadeDrive<J>
        requires { IsMadeDrive J.answering J.failing drive }
        ensures { result ≡ drive }
    {
        MadeDrive {
            drive,
            of: PhantomData,
        }
    }

    /// The call at `place` among those that were made from `branch`, if there is one.
    fn made_call(&self, branch: u32, place: usize) -> Option<&MadeCall>
        ensures { IfSome result (λ made. IsMade J.answering J.failing made.now) }
    {
        self.drive.branches.get(branch as usize)?.get(place)
    }

    /// How `call` ended, if it is the one at `place` among those that were made from `branch`. `None` also if an allocation
    /// fails.
    fn end_of_call(
        &self,
        alloc: Global,
        branch: u32,
        place: usize,
        call: &RealCall,
    ) -> Option<Result<Value, CallFault>>
        ensures { IfSome result (λ end. MatchResult end (λ v. J.answering call.now v) (λ f. J.failing call.now f)) }
    {
        let made = self.made_call(branch, place)?;
        if made.call == *call {
            return copy_of_end(alloc, &made.end);
        }
        None
    }
}

/// A drive that is played: each call is answered as the next one from its branch was. If that was another call, it is made on
/// the system, and the replay is astray.
#[derive(Drop)]
pub(crate) struct Replay<'s, J: Relations, S: Subject> {
    alloc: Global,
    drive: MadeDrive<J>,
    system: &'s SystemWithRelations<J, S>,
    /// The place of the next call from each branch.
    places: Vec<AtomicU64>,
    /// 1 if some call was made on the system.
    astray: AtomicU64,
}

impl<'s, J: Relations, S: Subject> Replay<'s, J, S> {
    /// A drive of which no call is played yet.
    pub(crate) fn new(
        alloc: Global,
        drive: MadeDrive<J>,
        system: &'s SystemWithRelations<J, S>,
    ) -> Result<Replay<'s, J, S>, AllocError> {
        let mut places = Vec::new(alloc);
        for _ in 0..MOST_BRANCHES {
            places.push(AtomicU64::new(0))?;
        }
        Ok(Replay {
            alloc,
            drive,
            system,
            places,
            astray: AtomicU64::new(0),
        })
    }

    /// Whether some call was made on the system.
    pub(crate) fn is_astray(&self) -> bool {
        self.astray.load(Ordering::SeqCst) != 0
    }

    /// The end of the next call from `branch`, if that is this call.
    fn next_end(&self, branch: u32, call: &RealCall) -> Option<Result<Value, CallFault>>
        ensures { IfSome result (λ end. MatchResult end (λ v. J.answering call.now v) (λ f. J.failing call.now f)) }
    {
        let place = self
            .places
            .get(branch as usize)?
            .fetch_add(1, Ordering::SeqCst);
        self.drive
            .end_of_call(self.alloc, branch, place as usize, call)
    }
}

impl<'s, J: Relations, S: Subject> Subject for Replay<'s, J, S> {
    ghost may_answer = { λ _ c v. J.answering c v };

    ghost may_fail = { λ _ c f. J.failing c f };

    ghost may_refuse_reset = { λ _ f. J.resetting f };

    /// A replay begins in the initial state.
    fn reset_system(&mut self) -> Result<(), CallFault> {
        Ok(())
    }

    fn call_from_branch(&self, branch: u32, call: &RealCall) -> Result<Value, CallFault> {
        match self.next_end(branch, call) {
            Some(end) => end,
            None => {
                self.astray.store(1, Ordering::SeqCst);
                self.system.call_from_branch(branch, call)
            }
        }
    }

    fn bursts(&self) -> bool {
        false
    }

    fn burst_case(&mut self, _case: &BurstCase) -> Option<Items<BurstDrive>> {
        None
    }
}
