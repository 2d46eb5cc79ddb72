//! The names that docs/REFUSALS.md gives the refusals of other crates.

ghost use Rattle.std.specs.Prelude.{◌≡◌, ◌≤◌, length};
ghost use Rattle.signer_service.specs.Names.{block_refusal_name, certificate_refusal_name, core_refusal_name, desk_error_name, header_refusal_name, log_error_name, vote_refusal_name};

use blocks::HeaderRefusal;
use certificates::{BlockRefusal, CertificateRefusal, VoteRefusal};
use replica_core::CoreRefusal;
use vote_desk::DeskError;
use vote_log::LogError;

pub(crate) fn header_refusal_name(refusal: HeaderRefusal) -> &'static [u8]
    ensures name { result.now ≡ header_refusal_name refusal }
    ensures short { length result.now ≤ 20 }
{
    match refusal {
        HeaderRefusal::Length => b"Length",
        HeaderRefusal::Magic => b"Magic",
        HeaderRefusal::ViewOrder => b"ViewOrder",
    }
}

pub(crate) fn certificate_refusal_name(refusal: CertificateRefusal) -> &'static [u8]
    ensures name { result.now ≡ certificate_refusal_name refusal }
    ensures short { length result.now ≤ 20 }
{
    match refusal {
        CertificateRefusal::Memory => b"Memory",
        CertificateRefusal::Length => b"Length",
        CertificateRefusal::Order => b"Order",
        CertificateRefusal::Count => b"Count",
    }
}

pub(crate) fn block_refusal_name(refusal: BlockRefusal) -> &'static [u8]
    ensures name { result.now ≡ block_refusal_name refusal }
    ensures short { length result.now ≤ 20 }
{
    match refusal {
        BlockRefusal::WrongBlock => b"WrongBlock",
        BlockRefusal::Count => b"Count",
        BlockRefusal::UnknownReplica => b"UnknownReplica",
        BlockRefusal::UnknownKey => b"UnknownKey",
        BlockRefusal::Signature(_) => b"Signature",
    }
}

pub(crate) fn vote_refusal_name(refusal: VoteRefusal) -> &'static [u8]
    ensures name { result.now ≡ vote_refusal_name refusal }
    ensures short { length result.now ≤ 20 }
{
    match refusal {
        VoteRefusal::UnknownReplica => b"UnknownReplica",
        VoteRefusal::UnknownKey => b"UnknownKey",
        VoteRefusal::Signature => b"Signature",
    }
}

pub(crate) fn core_refusal_name(refusal: CoreRefusal) -> &'static [u8]
    ensures name { result.now ≡ core_refusal_name refusal }
    ensures short { length result.now ≤ 20 }
{
    match refusal {
        CoreRefusal::Memory => b"Memory",
        CoreRefusal::UnknownParent => b"UnknownParent",
        CoreRefusal::ParentView => b"ParentView",
        CoreRefusal::TreeFull => b"TreeFull",
        CoreRefusal::SameId => b"SameId",
    }
}

pub(crate) fn log_error_name(refusal: LogError) -> &'static [u8]
    ensures name { result.now ≡ log_error_name refusal }
    ensures short { length result.now ≤ 20 }
{
    match refusal {
        LogError::Memory => b"Memory",
        LogError::Device => b"Device",
        LogError::NotAJournal => b"NotAJournal",
        LogError::Damaged => b"Damaged",
        LogError::Full => b"Full",
        LogError::Stopped => b"Stopped",
        LogError::NoSuchEntry => b"NoSuchEntry",
        LogError::BadEntry(_) => b"BadEntry",
        LogError::IllegalLog(_) => b"IllegalLog",
    }
}

pub(crate) fn desk_error_name(refusal: DeskError) -> &'static [u8]
    ensures name { result.now ≡ desk_error_name refusal }
    ensures short { length result.now ≤ 20 }
{
    match refusal {
        DeskError::Memory => b"Memory",
        DeskError::Core(_) => b"Core",
        DeskError::KeySpent => b"KeySpent",
        DeskError::LogFull => b"LogFull",
        DeskError::Device => b"Device",
        DeskError::Stopped => b"Stopped",
        DeskError::ReceiptMismatch => b"ReceiptMismatch",
    }
}
