//! Whether receipts are those of a log.

ghost use Rattle.std.specs.Prelude.{◌≡◌, ◌≤◌, ◌↔◌, length, drop, IsTrue};
ghost use Rattle.std.specs.List.Sorted.{IsNonDecreasingBy, IsPermutation};
ghost use Rattle.vote_desk.specs.Desks.{vote_count};
ghost use Rattle.vote_desk.specs.Receipts.{AreReceipts, HaveOwnNumbers, IsReceiptOf, IsVoteIn, numbers_rise_from};

use crate::reply::Receipt;
use replica_core::Stored;

// Whether an entry is a vote for the receipt's view and id.
fn is_vote_in(entry: &Stored, receipt: &Receipt) -> bool
    ensures { IsTrue result ↔ IsVoteIn entry.now receipt.now }
{
    if !entry.voted {
        return false;
    }
    if receipt.vote.view != entry.block.view {
        return false;
    }
    receipt.vote.id == entry.block.id()
}

/// Whether the entry of the receipt's number is such a vote, and stands behind the first so many entries.
pub(crate) fn is_receipt(opened: usize, steps: &[Stored], receipt: &Receipt) -> bool
    ensures { IsTrue result ↔ IsReceiptOf opened steps.now receipt.now }
{
    let number = receipt.number as usize;
    if number < opened || number >= steps.len() {
        return false;
    }
    is_vote_in(&steps[number], receipt)
}

// Whether the numbers of the receipts rise.
fn rise(receipts: &[Receipt]) -> bool
    ensures { result ≡ numbers_rise_from 0 receipts.now }
{
    let mut least = 0;
    for receipt in receipts {
        let number = u64::from(receipt.number);
        if number < least {
            return false;
        }
        least = number + 1;
    }
    true
}

// How many of the entries are votes.
#[tactic(auto, using(std::proofs::lemmas::List::Sums::count_by_more_yes, std::proofs::lemmas::List::Sums::count_by_more_no))]
fn vote_count(steps: &[Stored]) -> usize
    ensures { result ≡ vote_count steps.now }
{
    let mut count = 0;
    for step in steps {
        if step.voted {
            count += 1;
        }
    }
    count
}

// Whether no two receipts, sorted by number, have one number.
fn have_own_numbers(receipts: &[Receipt]) -> bool
    requires { IsNonDecreasingBy (λ r. r.number) receipts.now }
    ensures { IsTrue result ↔ HaveOwnNumbers receipts.now }
{
    rise(receipts)
}

/// Whether these, sorted by number, are the receipts of a log that was opened with so many entries.
pub(crate) fn are_receipts(opened: usize, steps: &[Stored], receipts: &[Receipt]) -> bool
    requires opened { opened ≤ length steps.now }
    requires sorted { IsNonDecreasingBy (λ r. r.number) receipts.now }
    ensures { IsTrue result ↔ AreReceipts opened steps.now receipts.now }
{
    if !have_own_numbers(receipts) {
        return false;
    }
    if !receipts.iter().all(|r| is_receipt(opened, steps, r)) {
        return false;
    }
    receipts.len() == vote_count(&steps[opened..])
}

/// Sorts receipts by number.
pub(crate) fn sort(receipts: &mut Vec<Receipt>)
    ensures same { IsPermutation receipts.old.items receipts.new.items }
    ensures sorted { IsNonDecreasingBy (λ r. r.number) receipts.new.items }
{
    receipts.sort_unstable_by_key(|r| r.number);
}
