//! Certificates with numbers.

ghost use Rattle.std.specs.Prelude.{◌≡◌, IfOk, []};
ghost use Rattle.boxcar.specs.Table.{Shelves, Shows};

use audit_evidence::{CertificateVotes, KeptCertificate, Mark};
use base_shared::Shared;
use boxcar::Pushed;
use std::alloc::AllocError;
use std::marker::{Brand, PhantomData};
use std::sync::Wait;

/// The certificates that threads made. The place of each is its number. The list only grows, and is asked for nothing but numbers:
/// what it holds bears out that a number has one certificate.
pub(crate) type CertificateList = boxcar::Vec<Shared<CertificateVotes>>;

/// Names a list of certificates in contracts, so that the type of a number says which list it is of. Code is generic over a
/// name, and is called with `Brand` for it: that call's proof says which list it stands for.
pub(crate) trait ListNaming {
    // the list
    ghost list: { Shelves };
}

impl ListNaming for Brand {
    ghost list = { record { tag = []; buckets = [] } };
}

/// A certificate's number in the list that is named.
#[derive(Drop)]
pub(crate) struct Number<'n, L: ListNaming> {
    list: &'n CertificateList,
    place: Pushed<Shared<CertificateVotes>>,
    named: PhantomData<L>,
    ghost of: { list.now ≡ L.list },
    ghost shown: { Shows L.list place },
}

impl<'n, L: ListNaming> Mark for Number<'n, L> {
    ghost marks = { λ n votes. n.place.value ≡ votes };

    fn is(&self, other: &Number<'n, L>) -> bool {
        if self.place.index() != other.place.index() {
            return false;
        }
        // For the proof: what stands at a place stays there.
        self.list.agrees(&self.place, &other.place);
        true
    }
}

// The certificate with a number of its own.
pub(crate) fn numbered<'n, L: ListNaming, R: Wait>(
    rt: &R,
    list: &'n CertificateList,
    votes: Shared<CertificateVotes>,
) -> Result<KeptCertificate<Number<'n, L>>, AllocError>
    requires { list.now ≡ L.list }
    ensures { IfOk result (λ k. k ≡ votes) }
{
    match list.push_shown(rt, votes.again()?) {
        Ok(place) => Ok(KeptCertificate::new(
            votes,
            Number {
                list,
                place,
                named: PhantomData,
            },
        )),
        Err(_) => Err(AllocError),
    }
}
