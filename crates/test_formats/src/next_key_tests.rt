//! Statements of next keys and endorsements: bytes of an independent program.

use crate::renewed;
use crate::stored::committee;
use handover_keys::{
    EndorsementRefusal, NextKeysView, bound_id, check_endorsement, write_endorsement,
    write_next_keys,
};
use lms_tree::PublicKey;
use std::alloc::Global;
use std::test::Fail;

#[test]
fn a_bound_id_is_the_digest_of_its_place(rt: HostRuntime) -> Result<(), Fail> {
    let id = bound_id(&committee()?.chain(), 258, 1);
    assert!(rt; id.as_slice() == renewed::bound_id());
    Ok(())
}

#[test]
fn a_statement_is_written_and_read(rt: HostRuntime) -> Result<(), Fail> {
    let keys = [
        PublicKey {
            key_id: [7; 16],
            root: [8; 32],
        },
        PublicKey {
            key_id: [9; 16],
            root: [10; 32],
        },
    ];
    let text = write_next_keys(rt.alloc(), &committee()?.chain(), 258, &keys)?;
    assert!(rt; text.as_slice() == renewed::statement());
    let read = NextKeysView::parse(&text).ok();
    let read = read.ok_or("the statement is refused")?;
    assert!(rt; read.replica() == 258);
    assert!(rt; read.count() == 2);
    Ok(())
}

#[test]
fn an_endorsement_is_written_again(rt: HostRuntime) -> Result<(), Fail> {
    let good = check_endorsement(&committee()?, renewed::endorsement()).ok();
    let good = good.ok_or("the endorsement is refused")?;
    let mut signature = [0; 1452];
    if good.signature().len() != 1452 {
        return Err("a signature of another length".into());
    }
    signature.copy_from_slice(good.signature());
    let text = write_endorsement(rt.alloc(), &good.statement(), good.key(), &signature)?;
    assert!(rt; text.as_slice() == renewed::endorsement());
    Ok(())
}

// Why the stored endorsement is refused with another byte at a place.
fn refusal_with(alloc: Global, at: usize, byte: u8) -> Result<Option<EndorsementRefusal>, Fail> {
    let mut bytes = renewed::endorsement().to_vec(alloc)?;
    *bytes.get_mut(at).ok_or("no such byte")? = byte;
    Ok(check_endorsement(&committee()?, &bytes).err())
}

// A signature covers the roots, and each refusal comes before those behind it.
#[test]
fn an_endorsement_with_another_byte_is_refused(rt: HostRuntime) -> Result<(), Fail> {
    let cases = [
        (3, b'2', EndorsementRefusal::Magic),
        (38, 0, EndorsementRefusal::Count),
        (38, 2, EndorsementRefusal::Length),
        (42, 5, EndorsementRefusal::Key),
        (4, 0, EndorsementRefusal::Chain),
        (37, 4, EndorsementRefusal::Replica),
        (37, 2, EndorsementRefusal::KeyId),
        (62, 0, EndorsementRefusal::KeyId),
        (95, 1, EndorsementRefusal::KeyNumber),
        (94, 0, EndorsementRefusal::Signature),
        (1547, 0, EndorsementRefusal::Signature),
    ];
    for (at, byte, want) in cases {
        let refusal = refusal_with(rt.alloc(), at, byte)?;
        assert_eq!(rt; refusal, Some(want));
    }
    Ok(())
}
