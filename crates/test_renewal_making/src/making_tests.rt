//! Renewals of stored endorsements: bytes of an independent program.

use crate::stored;
use blocks::CommitteeView;
use handover_keys::EndorsementRefusal;
use handover_renewals::{Made, MakingRefusal, compose};
use std::alloc::{AllocError, Global};
use std::test::Fail;
use test_fixtures::verdicts;

// The texts, each in memory of its own.
fn texts(alloc: Global, parts: &[&[u8]]) -> Result<Vec<Vec<u8>>, AllocError> {
    let mut texts = Vec::new(alloc);
    for part in parts {
        texts.push(part.to_vec(alloc)?)?;
    }
    Ok(texts)
}

// What comes of these endorsements under the stored committee.
fn answer(alloc: Global, parts: &[&[u8]]) -> Result<Result<Made, MakingRefusal>, Fail> {
    let committee = CommitteeView::parse(verdicts::committee()).ok();
    let committee = committee.ok_or("the committee is refused")?;
    Ok(compose(alloc, &committee, &texts(alloc, parts)?))
}

#[test]
fn endorsements_in_any_order_make_the_renewal(rt: HostRuntime) -> Result<(), Fail> {
    let parts = [
        stored::endorsement_2(),
        stored::endorsement_0(),
        stored::endorsement_1(),
    ];
    let made = answer(rt.alloc(), &parts)?.ok();
    let made = made.ok_or("no renewal is made")?;
    assert!(rt; made.committee.as_slice() == stored::committee());
    assert!(rt; made.renewal.as_slice() == stored::renewal());
    assert!(rt; made.slots.count == 3);
    assert!(rt; made.slots.weight == 3);
    Ok(())
}

// Why nothing is made of these.
fn refusal(alloc: Global, parts: &[&[u8]]) -> Result<Option<MakingRefusal>, Fail> {
    Ok(answer(alloc, parts)?.err())
}

#[test]
fn one_that_is_not_good_is_named(rt: HostRuntime) -> Result<(), Fail> {
    let mut changed = stored::endorsement_1().to_vec(rt.alloc())?;
    *changed.get_mut(1547).ok_or("no such byte")? ^= 1;
    let parts = [
        stored::endorsement_0(),
        changed.as_slice(),
        stored::endorsement_0(),
    ];
    let want = MakingRefusal::Endorsement(1, EndorsementRefusal::Signature);
    assert_eq!(rt; refusal(rt.alloc(), &parts)?, Some(want));
    Ok(())
}

#[test]
fn two_of_one_replica_are_named(rt: HostRuntime) -> Result<(), Fail> {
    let parts = [
        stored::endorsement_1(),
        stored::endorsement_0(),
        stored::endorsement_2(),
        stored::endorsement_0(),
    ];
    assert_eq!(rt;
        refusal(rt.alloc(), &parts)?,
        Some(MakingRefusal::Twice(1, 3))
    );
    Ok(())
}

#[test]
fn two_of_four_are_too_few(rt: HostRuntime) -> Result<(), Fail> {
    let parts = [stored::endorsement_0(), stored::endorsement_1()];
    assert_eq!(rt; refusal(rt.alloc(), &parts)?, Some(MakingRefusal::TooFew));
    assert_eq!(rt; refusal(rt.alloc(), &[])?, Some(MakingRefusal::TooFew));
    Ok(())
}
