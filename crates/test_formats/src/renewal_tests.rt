//! Renewals: bytes of an independent program.

use crate::renewed;
use crate::stored::committee;
use certificates::CommitteeView;
use handover_renewals::{Renewal, RenewalFormRefusal, RenewalRefusal, Slots, renews};
use std::alloc::Global;
use std::test::Fail;

fn new_committee(bytes: &[u8]) -> Result<CommitteeView<'_>, Fail> {
    let committee = CommitteeView::parse(bytes).ok();
    Ok(committee.ok_or("the new committee is refused")?)
}

fn read(alloc: Global, bytes: &[u8]) -> Result<Renewal, Fail> {
    let renewal = Renewal::read(alloc, bytes).ok();
    Ok(renewal.ok_or("the renewal is unreadable")?)
}

// What comes of the stored new committee by these bytes.
fn answer(alloc: Global, bytes: &[u8]) -> Result<Result<Slots, RenewalRefusal>, Fail> {
    let renewal = read(alloc, bytes)?;
    let new = new_committee(renewed::committee())?;
    Ok(renews(&committee()?, &new, &renewal))
}

#[test]
fn a_renewal_is_written_again_and_renews(rt: HostRuntime) -> Result<(), Fail> {
    let text = read(rt.alloc(), renewed::renewal())?.write(rt.alloc())?;
    assert!(rt; text.as_slice() == renewed::renewal());
    let slots = answer(rt.alloc(), &text)?.ok();
    let slots = slots.ok_or("it does not renew")?;
    assert!(rt; slots.count == 3);
    assert!(rt; slots.weight == 3);
    Ok(())
}

// The stored renewal with another byte at a place.
fn with_byte(alloc: Global, at: usize, byte: u8) -> Result<Vec<u8>, Fail> {
    let mut bytes = renewed::renewal().to_vec(alloc)?;
    *bytes.get_mut(at).ok_or("no such byte")? = byte;
    Ok(bytes)
}

#[test]
fn a_renewal_with_another_byte_is_unreadable(rt: HostRuntime) -> Result<(), Fail> {
    let cases = [
        (3, b'2', RenewalFormRefusal::Magic),
        (43, 0, RenewalFormRefusal::View),
        (77, 4, RenewalFormRefusal::Length),
        (79, 1, RenewalFormRefusal::Order),
    ];
    for (at, byte, want) in cases {
        let bytes = with_byte(rt.alloc(), at, byte)?;
        let refusal = Renewal::read(rt.alloc(), &bytes).err();
        assert_eq!(rt; refusal, Some(want));
    }
    Ok(())
}

// The place of replica 2 is that of replica 3, whose slot is kept, in the fifth case: so slot 2 has no signature.
#[test]
fn a_renewal_with_another_byte_is_refused(rt: HostRuntime) -> Result<(), Fail> {
    let cases = [
        (4, 0, RenewalRefusal::Chain),
        (44, 0, RenewalRefusal::File),
        (80, 1, RenewalRefusal::KeyNumber(0)),
        (1600, 0, RenewalRefusal::Signature(1)),
        (2989, 3, RenewalRefusal::Unsigned(2)),
    ];
    for (at, byte, want) in cases {
        let bytes = with_byte(rt.alloc(), at, byte)?;
        let refusal = answer(rt.alloc(), &bytes)?.err();
        assert_eq!(rt; refusal, Some(want));
    }
    Ok(())
}

// The new committee with slot 2 kept, too, and a renewal that names its file.
#[test]
fn two_new_slots_of_four_are_too_few(rt: HostRuntime) -> Result<(), Fail> {
    let old = committee()?;
    let mut file = renewed::committee()
        .get(..120)
        .ok_or("too short")?
        .to_vec(rt.alloc())?;
    file.extend_from_slice(old.bytes().get(120..).ok_or("too short")?)?;
    let new = new_committee(&file)?;
    let mut bytes = renewed::renewal()
        .get(..44)
        .ok_or("too short")?
        .to_vec(rt.alloc())?;
    bytes.extend_from_slice(&new.genesis().payload)?;
    bytes.extend_from_slice(renewed::renewal().get(76..).ok_or("too short")?)?;
    let refusal = renews(&old, &new, &read(rt.alloc(), &bytes)?).err();
    assert_eq!(rt; refusal, Some(RenewalRefusal::TooFew));
    Ok(())
}
