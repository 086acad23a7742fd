ghost use Rattle.std.specs.Prelude.{◌≡◌, ◌↔◌, [], length, slice_get, IsTrue, IfOk, IfErr};
ghost use Rattle.std.specs.Slice.Iter.{iter_rest};
ghost use Rattle.batch.specs.Batches.{IsBatch};
ghost use Rattle.batch.specs.Text.{Denotes, batch_text};
ghost use Rattle.batch.specs.Faults.{IsFirstFault, NeedsMemory};
ghost use Rattle.batch.specs.ListFaults.{ButForMemory, ForMemory};

use crate::fault::BatchFault;
use crate::list_reading::read_list;
use crate::list_writing::write_list;
use crate::shape::Shape;
use crate::transfer::Transfer;
use std::alloc::{AllocError, Global};
use std::marker::Model;
use std::slice;

/// A list of transfers, numbered from 0: at most [`MAX_TRANSFERS`](crate::MAX_TRANSFERS) of them,
/// all between blocks of the widest shape. Equal transfers are different members of the list.
#[derive(Drop)]
pub struct Batch {
    transfers: Vec<Transfer>,
}

impl Model for Batch {
    ghost use Rattle.std.specs.Prelude.{List};
    ghost use Rattle.batch.specs.declared.transfer.Transfer.{Transfer};
    ghost use Rattle.batch.specs.Batches.{IsBatch};

    ghost Value = { List Transfer };

    ghost view = { λ b. b.transfers.items };

    ghost invariant = { λ b. IsBatch b.transfers.items };
}

impl Batch {
    /// The batch of these transfers: not too many, and all of them between blocks of the widest
    /// shape.
    pub fn of(transfers: Vec<Transfer>) -> Batch
        requires { IsBatch transfers.items }
        ensures { result ≡ transfers.items }
    {
        Batch { transfers }
    }

    /// Reads a batch text: the line `batch N`, then N lines `push I b R c` or `pull I b R c`.
    ///
    /// Gives the batch that the text denotes, or the text's first fault. Every module and block has
    /// to be one of the shape. Want of memory is answered only where a transfer had to be kept.
    /// Takes time linear in the length of the text.
    pub fn read(alloc: Global, text: &[u8], shape: Shape) -> Result<Batch, BatchFault>
        ensures batch { IfOk result (λ batch. Denotes shape text.now batch) }
        ensures fault { IfErr result (ButForMemory (IsFirstFault shape text.now)) }
        ensures memory { IfErr result (ForMemory (NeedsMemory shape text.now)) }
    {
        let transfers = read_list(alloc, text, shape)?;
        Ok(Batch { transfers })
    }

    /// The batch's text: the line `batch N`, then the N lines of its transfers. Reading it gives an
    /// equal batch. Takes time that grows with the length of the text.
    pub fn write(&self) -> Result<Vec<u8>, AllocError>
        ensures { IfOk result (λ text. text.items ≡ batch_text self.now) }
    {
        write_list(*self.transfers.allocator(), self.transfers.as_slice())
    }

    /// How many transfers there are.
    pub fn len(&self) -> usize
        ensures value { result ≡ length self.now }
        ensures batch { IsBatch self.now }
    {
        self.transfers.len()
    }

    /// Whether there is no transfer.
    pub fn is_empty(&self) -> bool
        ensures { IsTrue result ↔ (self.now ≡ []) }
    {
        self.transfers.is_empty()
    }

    /// All transfers, in order, one after the other.
    pub fn iter(&self) -> slice::Iter<'_, Transfer>
        ensures transfers { iter_rest result ≡ self.now }
        ensures batch { IsBatch self.now }
    {
        self.transfers.iter()
    }

    /// All transfers, in order. A loop over them, and over their numbers with `enumerate`, knows
    /// which transfer comes without a proof by hand.
    pub fn as_slice(&self) -> &[Transfer]
        ensures value { result.now ≡ self.now }
        ensures batch { IsBatch self.now }
    {
        self.transfers.as_slice()
    }

    /// Transfer `t`, where there is one.
    pub fn transfer(&self, t: usize) -> Option<Transfer>
        ensures { result ≡ slice_get self.now t }
    {
        self.transfers.get(t).copied()
    }

    /// The allocator that the batch was made with, for a list that is made beside the batch, such
    /// as one of its numbers.
    ///
    /// A call that takes no memory leaves it alone. No contract can say that it does, since whoever
    /// holds a batch holds this too: only a test that refuses memory shows it.
    pub fn allocator(&self) -> Global {
        *self.transfers.allocator()
    }

    /// An equal batch. Takes time that grows with the number of transfers.
    pub fn copy(&self) -> Result<Batch, AllocError>
        ensures { IfOk result (λ batch. batch ≡ self.now) }
    {
        let transfers = self.transfers.clone()?;
        Ok(Batch { transfers })
    }
}

impl PartialEq for Batch {
    ghost use Rattle.std.specs.Prelude.{◌≡◌, ◌↔◌, IsTrue};
    ghost use Rattle.std.specs.Cmp.Lexicographic.{lists_per};
    ghost use Rattle.batch.specs.contracts.transfer.TransferPartialEq.TheImpl.Laws.{laws-law};
    ghost use Rattle.batch.specs.Equal.{same_transfers};

    ghost eq = { same_transfers };

    ghost laws = { lists_per laws-law };

    fn eq(&self, other: &Batch) -> bool
        ensures value { result ≡ same_transfers self.now other.now }
        ensures equal { IsTrue result ↔ (self.now ≡ other.now) }
    {
        self.transfers == other.transfers
    }
}

impl Eq for Batch {
    ghost use Rattle.std.specs.Cmp.Lexicographic.{lists_equiv};
    ghost use Rattle.batch.specs.contracts.transfer.TransferEq.TheImpl.Laws.{laws-law};

    ghost laws = { lists_equiv laws-law };
}
