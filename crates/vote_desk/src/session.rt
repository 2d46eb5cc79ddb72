//! The callers of a desk.

ghost use Rattle.std.specs.Prelude.{◌≡◌, ◌<◌, ◌+◌, ◌-◌, ◌++◌, ◌∷◌, [], vec_len, vec_capacity, IfErr, OnOk};
ghost use Rattle.vote_desk.specs.declared.desk_error.DeskError.TheVariants.{Memory};

use crate::desk_error::DeskError;
use crate::naming::DeskNaming;
use crate::reply::Receipt;
use std::alloc::Global;
use std::sync::ledger::{Book, Share};

/// One caller of a desk: the receipts of the votes that the desk released to it, and as large a share of the desk's book.
/// `close` wants all sessions back.
#[derive(Drop)]
pub struct Session<N: DeskNaming> {
    share: Share<N>,
    receipts: Vec<Receipt>,
    pub ghost one_part: { share.parts ≡ 1 },
    pub ghost counted: { share.amount ≡ vec_len receipts },
}

impl<N: DeskNaming> Session<N> {
    // A caller to whom nothing was released.
    pub(crate) fn new(alloc: Global, share: Share<N>) -> Session<N>
        requires { (share.parts ≡ 1) × (share.amount ≡ 0) }
        ensures { result.receipts.items ≡ [] }
    {
        Session {
            share,
            receipts: Vec::new(alloc),
        }
    }

    /// The receipts of the votes that were released to it, in their order.
    pub fn receipts(&self) -> &[Receipt]
        ensures { result.now ≡ self.now.receipts.items }
    {
        &self.receipts
    }

    // Makes room for one receipt more.
    pub(crate) fn reserve(&mut self) -> Result<(), DeskError>
        ensures receipts { self.new.receipts.items ≡ self.old.receipts.items }
        ensures share { self.new.share ≡ self.old.share }
        ensures room { OnOk result (vec_len self.new.receipts < vec_capacity self.new.receipts) }
        ensures refused { IfErr result (λ e. e ≡ Memory) }
    {
        self.receipts.reserve(1)?;
        Ok(())
    }

    // Releases a vote to the caller, for which there is room.
    pub(crate) fn release(&mut self, book: &mut Book<N>, receipt: &Receipt)
        requires { vec_len self.old.receipts < vec_capacity self.old.receipts }
        ensures receipts { self.new.receipts.items ≡ self.old.receipts.items ++ receipt.now ∷ [] }
        ensures share { self.new.share.amount ≡ self.old.share.amount + 1 }
        ensures total { book.new.total ≡ book.old.total + 1 }
    {
        let Session { share, receipts } = self;
        book.add(share, 1);
        receipts.push_reserved(*receipt);
    }

    // The share and the receipts.
    pub(crate) fn into_parts(self) -> (Share<N>, Vec<Receipt>)
        ensures receipts { result.1.items ≡ self.receipts.items }
        ensures share { (result.0.parts ≡ 1) × (result.0.amount ≡ vec_len result.1) }
    {
        let Session { share, receipts } = self;
        (share, receipts)
    }
}
