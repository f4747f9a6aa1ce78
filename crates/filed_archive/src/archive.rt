//! The archive of a repository in files.
use crate::filed_archive::FiledArchive;
use crate::unsaved::{ChangedFiles, Unsaved, with_hold};
use access::Handed;
use archives::{Archive, SaveFault};
use published::Files;
use repo_api::{ChangeFault, CommitAsk, LockAsk, PropertyAsk, UnlockAsk};
use std::mem::drop;
use store_files::Store;
use stored_repository::Filed;

impl<F: Filed, S: Store> Files for FiledArchive<F, S> {
    ghost use Rattle.filed_archive.specs.Writing.{kept_of};

    ghost kept = { kept_of };

    fn is_halted(&self) -> bool {
        self.saves.is_halted()
    }

    fn failures(&self) -> u64 {
        self.saves.store().failures()
    }
}

impl<F: Filed, S: Store> Archive<F> for FiledArchive<F, S> {
    ghost use Rattle.filed_archive.specs.{Writing.{Leaves, Writes, stands_of}, Laws.{saves, stays, joins, among, rests}};

    type Unsaved = Unsaved<F>;

    ghost stands = { stands_of };

    ghost leaves = { Leaves };

    ghost writes = { Writes };

    ghost saves = { saves };

    ghost stays = { stays (λ store folder honest left. S.only_now store folder honest left) };

    ghost joins = { joins };

    ghost among = { among };

    ghost rests = { rests };

    fn committed(&self, ask: &CommitAsk, txn: &F::Txn) -> Result<(F, Unsaved<F>), ChangeFault> {
        match self.repository.committed(ask, txn) {
            Ok((next, new)) => with_hold(next, ChangedFiles::Revision(new)),
            Err(fault) => Err(fault),
        }
    }

    fn locked(&self, ask: LockAsk) -> Result<(F, Unsaved<F>), ChangeFault> {
        let made = self.repository.locked(&ask);
        drop(ask);
        match made {
            Ok((next, file)) => with_hold(next, ChangedFiles::Locks(file)),
            Err(fault) => Err(fault),
        }
    }

    fn unlocked(&self, ask: &UnlockAsk) -> Result<(F, Unsaved<F>), ChangeFault> {
        match self.repository.unlocked(ask) {
            Ok((next, file)) => with_hold(next, ChangedFiles::Locks(file)),
            Err(fault) => Err(fault),
        }
    }

    fn released(&self, handed: &Handed) -> Result<(F, Unsaved<F>), ChangeFault> {
        match self
            .repository
            .released(handed.user.as_ref(), &handed.tokens)
        {
            Ok((next, file)) => with_hold(next, ChangedFiles::Locks(file)),
            // locks that there are are released, or memory was refused
            Err(fault) => {
                drop(fault);
                Err(ChangeFault::NoMemory)
            }
        }
    }

    fn property_changed(&self, ask: PropertyAsk) -> Result<(F, Unsaved<F>), ChangeFault> {
        let made = self.repository.property_changed(&ask);
        drop(ask);
        match made {
            Ok((next, new)) => with_hold(next, ChangedFiles::Properties(new)),
            Err(fault) => Err(fault),
        }
    }

    fn save(&mut self, unsaved: Unsaved<F>) -> Result<(), SaveFault> {
        self.save_change(unsaved)
    }
}
