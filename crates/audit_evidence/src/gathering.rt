//! Gathering of headers and votes.

ghost use Rattle.std.specs.Prelude.{◌≡◌, ◌≢◌, ◌↔◌, [], Err, IfErr, IfOk, IsErrOf, IsFalse, IsTrue, OnOk};
ghost use Rattle.std.specs.List.{All, AllPairs, Contains};
ghost use Rattle.blocks.specs.Genesis.{genesis_of};
ghost use Rattle.blocks.specs.Chains.{HasNone};
ghost use Rattle.blocks.specs.Headers.{HasLowerId, header_id};
ghost use Rattle.audit_evidence.specs.Evidence.{IsNotBelowParent, IsReportOf};
ghost use Rattle.audit_evidence.specs.Gathering.{CertificateHas, Grows, HasOwn, IsGatheringRefusal, IsListingOf, IsNone};
ghost use Rattle.audit_evidence.specs.NamedVotes.{all_votes, joined};
ghost use Rattle.audit_evidence.specs.declared.refusal.EvidenceRefusal.TheVariants.{Memory};
ghost use Rattle.audit_evidence.specs.Sets.{InSome};
ghost use Rattle.audit_evidence.specs.Logs.{FrameHasHeader, FrameNamesVote, HasHeader, HasVote, HaveEntries, LogHasHeader, LogNamesVote, SpellsEntry};

use crate::certificate_votes::KeptCertificate;
use crate::headers::HeaderSet;
use crate::keeper::Keeper;
use crate::listing::{Listing, copies};
use crate::mark::{Mark, Unmarked};
use crate::named_votes::NamedVotes;
use crate::refusal::EvidenceRefusal;
use crate::source::{SourceLog, SourceReport};
use base_shared::Shared;
use blocks::{CommitteeView, Header, NamedHeader};
use certificates::{Certificate, SignedVote};
use log_format::{Entry, EntryRefusal, Frames, entries_have_one_spelling};
use std::alloc::{AllocError, Global};
use std::marker::Model;

/// Headers and votes that logs name, gathered under a committee, each once, and genesis. No vote is checked yet.
#[derive(Drop)]
pub struct Gathered<'a, M: Mark = Unmarked> {
    committee: CommitteeView<'a>,
    headers: HeaderSet,
    votes: NamedVotes<M>,
}

impl<'a, M: Mark> Model for Gathered<'a, M> {
    ghost use Rattle.audit_evidence.specs.Gathering.{Gathered as GatheredValue};

    ghost Value = { GatheredValue };

    ghost view = { λ g. record { committee = g.committee; headers = g.headers; votes = g.votes } };
}

impl<'a, M: Mark> Gathered<'a, M> {
    /// Genesis alone.
    pub fn new(alloc: Global, committee: &CommitteeView<'a>) -> Result<Gathered<'a, M>, AllocError>
        ensures committee { IfOk result (λ g. g.committee ≡ committee.now) }
        ensures headers { IfOk result (λ g. (h : Header) → Contains g.headers h
            ↔ (h ≡ genesis_of committee.now)) }
        ensures votes { IfOk result (λ g. g.votes ≡ []) }
    {
        let mut headers = HeaderSet::new(alloc);
        headers.insert(Shared::new(alloc, NamedHeader::of(committee.genesis()))?)?;
        Ok(Gathered {
            committee: committee.again(),
            headers,
            votes: NamedVotes::new(alloc),
        })
    }

    // Whether the header is gathered already. Refused where another one of its id is.
    fn holds(&self, header: &NamedHeader) -> Result<bool, EvidenceRefusal>
        ensures held { IfOk result (λ held. IsTrue held → Contains self.now.headers header.now) }
        ensures new { IfOk result (λ held. IsFalse held
            → HasNone self.now.headers (header_id header.now)) }
        ensures err { IfErr result (IsGatheringRefusal self.now (λ h. h ≡ header.now)) }
        ensures no_memory { result ≢ Err Memory }
    {
        let Some(held) = self.headers.get(header.id()) else {
            return Ok(false);
        };
        let held = held.get();
        if *held.header() != *header.header() {
            return Err(EvidenceRefusal::Collision(*held.header(), *header.header()));
        }
        Ok(true)
    }

    fn add_header<K: Keeper<M>>(
        &mut self,
        keeper: &K,
        header: &Header,
    ) -> Result<(), EvidenceRefusal>
        ensures ok { OnOk result (Grows self.old self.new (λ h. h ≡ header.now) IsNone) }
        ensures err { IfErr result (IsGatheringRefusal self.old (λ h. h ≡ header.now)) }
        // Nothing grows for a header that is gathered already, nor for one that collides.
        ensures memory { IsErrOf result EvidenceRefusal.Memory
            → HasNone self.old.headers (header_id header.now) }
    {
        let named = NamedHeader::of(*header);
        if self.holds(&named)? {
            return Ok(());
        }
        self.headers.insert(keeper.header(&named)?)?;
        Ok(())
    }

    fn add_vote(&mut self, vote: Shared<SignedVote>) -> Result<(), AllocError>
        ensures { OnOk result (Grows self.old self.new IsNone (λ v. v ≡ vote)) }
    {
        self.votes.insert(vote)
    }

    fn add_votes_of(&mut self, certificate: Shared<KeptCertificate<M>>) -> Result<(), AllocError>
        ensures { OnOk result (Grows self.old self.new IsNone (Contains certificate)) }
    {
        self.votes.insert_certificate(certificate)
    }

    fn add_certificate<K: Keeper<M>>(
        &mut self,
        keeper: &K,
        certificate: &Certificate,
    ) -> Result<(), AllocError>
        ensures { OnOk result (Grows self.old self.new IsNone (CertificateHas certificate.now)) }
    {
        self.add_votes_of(keeper.certificate(certificate)?)
    }

    fn add_own_vote<K: Keeper<M>>(
        &mut self,
        keeper: &K,
        replica: u16,
        entry: &Entry,
    ) -> Result<(), AllocError>
        ensures { OnOk result (Grows self.old self.new IsNone (HasOwn replica entry.now)) }
    {
        if let Some(vote) = entry.vote(replica) {
            self.add_vote(keeper.vote(&vote)?)?;
        }
        Ok(())
    }

    fn add_headers<K: Keeper<M>>(
        &mut self,
        keeper: &K,
        entry: &Entry,
    ) -> Result<(), EvidenceRefusal>
        ensures ok { OnOk result (Grows self.old self.new (HasHeader entry.now) IsNone) }
        ensures err { IfErr result (IsGatheringRefusal self.old (HasHeader entry.now)) }
    {
        self.add_header(keeper, entry.block())?;
        self.add_header(keeper, entry.parent())
    }

    fn add_votes<K: Keeper<M>>(
        &mut self,
        keeper: &K,
        replica: u16,
        entry: &Entry,
    ) -> Result<(), AllocError>
        ensures { OnOk result (Grows self.old self.new IsNone (HasVote replica entry.now)) }
    {
        self.add_own_vote(keeper, replica, entry)?;
        self.add_certificate(keeper, entry.certificate())
    }

    // Adds what an entry of a replica's log names.
    fn add_entry<K: Keeper<M>>(
        &mut self,
        keeper: &K,
        replica: u16,
        entry: &Entry,
    ) -> Result<(), EvidenceRefusal>
        ensures ok { OnOk result (Grows self.old self.new (HasHeader entry.now)
            (HasVote replica entry.now)) }
        ensures err { IfErr result (IsGatheringRefusal self.old (HasHeader entry.now)) }
    {
        self.add_headers(keeper, entry)?;
        self.add_votes(keeper, replica, entry)?;
        Ok(())
    }

    /// Adds what a frame of a replica's log names, if it is an entry: its headers and its votes, which are not checked.
    /// Answers whether it is. After a refusal a part of it may have been added.
    pub fn add_frame<K: Keeper<M>>(
        &mut self,
        alloc: Global,
        keeper: &K,
        replica: u16,
        frame: &[u8],
    ) -> Result<bool, EvidenceRefusal>
        ensures ok { OnOk result (Grows self.old self.new (FrameHasHeader frame.now)
            (FrameNamesVote replica frame.now)) }
        ensures entry { IfOk result (λ is. IsTrue is ↔ SpellsEntry frame.now) }
        ensures err { IfErr result (IsGatheringRefusal self.old (FrameHasHeader frame.now)) }
    {
        // For the proof: a frame is the text of one entry at most.
        entries_have_one_spelling();
        match Entry::read(alloc, frame) {
            Ok(entry) => {
                self.add_entry(keeper, replica, &entry)?;
                Ok(true)
            }
            Err(EntryRefusal::Memory) => Err(EvidenceRefusal::Memory),
            Err(_) => Ok(false),
        }
    }

    // Adds what the frames of a replica's log name. Answers how many are entries.
    fn add_frames<K: Keeper<M>>(
        &mut self,
        alloc: Global,
        keeper: &K,
        replica: u16,
        frames: &Frames,
    ) -> Result<usize, EvidenceRefusal>
        ensures ok { OnOk result (Grows self.old self.new (InSome FrameHasHeader frames.now.frames)
            (InSome (FrameNamesVote replica) frames.now.frames)) }
        ensures entries { IfOk result (HaveEntries frames.now.frames) }
        ensures err { IfErr result
            (IsGatheringRefusal self.old (InSome FrameHasHeader frames.now.frames)) }
    {
        let mut entries = 0;
        for k in 0..frames.len() {
            if self.add_frame(alloc, keeper, replica, frames.payload(k))? {
                entries += 1;
            }
        }
        Ok(entries)
    }

    /// Adds what a log names. After a refusal a part of it may have been added.
    pub fn add_log<K: Keeper<M>>(
        &mut self,
        alloc: Global,
        keeper: &K,
        log: &SourceLog,
    ) -> Result<SourceReport, EvidenceRefusal>
        ensures ok { OnOk result (Grows self.old self.new (LogHasHeader log.now)
            (LogNamesVote log.now)) }
        ensures report { IfOk result (IsReportOf log.now) }
        ensures err { IfErr result (IsGatheringRefusal self.old (LogHasHeader log.now)) }
    {
        let entries = self.add_frames(alloc, keeper, log.replica, &log.frames)?;
        Ok(SourceReport {
            replica: log.replica,
            status: log.frames.status(),
            frames: log.frames.len(),
            entries,
        })
    }

    // Adds a header that was gathered apart.
    fn add_known_header(&mut self, header: &Shared<NamedHeader>) -> Result<(), EvidenceRefusal>
        ensures ok { OnOk result (Grows self.old self.new (λ h. h ≡ header.now) IsNone) }
        ensures err { IfErr result (IsGatheringRefusal self.old (λ h. h ≡ header.now)) }
    {
        if self.holds(header.get())? {
            return Ok(());
        }
        self.headers.insert(header.again()?)?;
        Ok(())
    }

    fn absorb_headers(&mut self, headers: &[Shared<NamedHeader>]) -> Result<(), EvidenceRefusal>
        ensures ok { OnOk result (Grows self.old self.new (Contains headers.now) IsNone) }
        ensures err { IfErr result (IsGatheringRefusal self.old (Contains headers.now)) }
    {
        for header in headers {
            self.add_known_header(header)?;
        }
        Ok(())
    }

    fn absorb_votes(&mut self, votes: &[Shared<SignedVote>]) -> Result<(), AllocError>
        ensures { OnOk result (Grows self.old self.new IsNone (Contains votes.now)) }
    {
        for vote in votes {
            self.add_vote(vote.again()?)?;
        }
        Ok(())
    }

    fn absorb_certificates(
        &mut self,
        certificates: &[Shared<KeptCertificate<M>>],
    ) -> Result<(), AllocError>
        ensures { OnOk result (Grows self.old self.new IsNone
            (Contains (joined certificates.now))) }
    {
        for certificate in certificates {
            self.add_votes_of(certificate.again()?)?;
        }
        Ok(())
    }

    fn absorb_all_votes(
        &mut self,
        votes: &[Shared<SignedVote>],
        certificates: &[Shared<KeptCertificate<M>>],
    ) -> Result<(), AllocError>
        ensures { OnOk result (Grows self.old self.new IsNone
            (Contains (all_votes votes.now certificates.now))) }
    {
        self.absorb_votes(votes)?;
        self.absorb_certificates(certificates)
    }

    /// Adds headers, single votes and certificates that were gathered apart. After a refusal a part of them may have been
    /// added.
    pub fn merge(
        &mut self,
        headers: &[Shared<NamedHeader>],
        votes: &[Shared<SignedVote>],
        certificates: &[Shared<KeptCertificate<M>>],
    ) -> Result<(), EvidenceRefusal>
        ensures ok { OnOk result (Grows self.old self.new (Contains headers.now)
            (Contains (all_votes votes.now certificates.now))) }
        ensures err { IfErr result (IsGatheringRefusal self.old (Contains headers.now)) }
    {
        self.absorb_headers(headers)?;
        self.absorb_all_votes(votes, certificates)?;
        Ok(())
    }

    /// The headers by rising id, the votes that stand alone, rising, and the certificates.
    pub fn into_parts(
        self,
        alloc: Global,
    ) -> Result<
        (
            Vec<Shared<NamedHeader>>,
            Vec<Shared<SignedVote>>,
            Vec<Shared<KeptCertificate<M>>>,
        ),
        AllocError,
    >
        ensures headers { IfOk result (λ parts. parts.0.items ≡ self.entry.headers) }
        ensures votes { IfOk result (λ parts. all_votes parts.1.items parts.2.items
            ≡ self.entry.votes) }
        ensures headers_rise { OnOk result (AllPairs HasLowerId self.entry.headers) }
        ensures views_fall { OnOk result (All IsNotBelowParent self.entry.headers) }
    {
        let Gathered {
            committee: _,
            headers,
            votes,
        } = self;
        let headers = headers.into_vec(alloc)?;
        let (votes, certificates) = votes.into_parts(alloc)?;
        Ok((headers, votes, certificates))
    }

    /// What was gathered, in order, each vote once.
    pub fn in_order(self, alloc: Global) -> Result<Listing<'a>, AllocError>
        ensures { IfOk result (IsListingOf self.entry) }
    {
        let Gathered {
            committee,
            headers,
            votes,
        } = self;
        Ok(Listing {
            committee,
            headers: copies(alloc, &headers.into_vec(alloc)?)?,
            votes: votes.into_vec(alloc)?,
        })
    }
}
