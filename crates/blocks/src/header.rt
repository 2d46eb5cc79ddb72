//! Headers of blocks.

ghost use Rattle.std.specs.Prelude.{◌≡◌, ◌↔◌, Ok, IfOk, IsTrue, ℕ};
ghost use Rattle.blocks.specs.HeaderReading.{header_in, header_refusal_number};
ghost use Rattle.blocks.specs.Headers.{Header as HeaderValue, IsHeader, NamesParent, header_id, header_text};

use base_wire::{array_at, put, u64_at};
use sha2::{Digest, Sha256};
use std::marker::Model;

/// The id of a block: the SHA-256 digest of its header's bytes.
pub type Id = [u8; 32];

/// The length of a header in bytes.
pub const HEADER_LEN: usize = 84;

/// The header of a block. Its type keeps that `parent_view` is below `view`, or that both are 0.
#[derive(Clone, Copy, Debug, PartialEq, Eq)]
pub struct Header {
    /// The view in which the block was proposed.
    pub view: u64,
    /// The view of the parent.
    pub parent_view: u64,
    /// The id of the parent.
    pub parent: Id,
    /// What the block carries, which is not read.
    pub payload: [u8; 32],
}

impl Model for Header {
    ghost use Rattle.blocks.specs.Headers.{Header as HeaderValue, AreInOrder};

    ghost Value = { HeaderValue };

    ghost view = { λ h. record {
      view = h.view;
      parent_view = h.parent_view;
      parent = h.parent;
      payload = h.payload;
    } };

    ghost inverse = { λ h. record {
      view = h.view;
      parent_view = h.parent_view;
      parent = h.parent;
      payload = h.payload;
    } };

    ghost invariant = { λ h. AreInOrder h.parent_view h.view };
}

/// Why bytes are no header, in the order of the tests.
#[derive(Clone, Copy, Debug, PartialEq, Eq)]
pub enum HeaderRefusal {
    /// There are not 84 bytes.
    Length = 1,
    /// They do not begin with `HSB1`.
    Magic = 2,
    /// The parent's view is not below the view, and not both are 0.
    ViewOrder = 3,
}

impl HeaderRefusal {
    /// The number of the refusal, which never changes.
    pub fn number(self) -> u8
        ensures { result ≡ header_refusal_number self }
    {
        self as u8
    }
}

impl Header {
    /// The header that the 84 bytes spell: `HSB1`, the view (8 bytes at 4), the parent's view (8 at 12),
    /// the parent's id (32 at 20) and the payload (32 at 52), numbers with the highest byte first.
    /// Refused in this order: Length, Magic, ViewOrder.
    pub fn from_bytes(bytes: &[u8]) -> Result<Header, HeaderRefusal>
        // What is read is spelled so.
        ensures found { IfOk result (λ h. IsHeader h × (bytes.now ≡ header_text h)) }

        // What is spelled so is read.
        ensures only { (h : HeaderValue) → IsHeader h → bytes.now ≡ header_text h → result ≡ Ok h }

        // The first test that fails refuses.
        ensures first_refusal { result ≡ header_in bytes.now }
    {
        Header::read(bytes)
    }

    #[tactic(auto, unfolding(crate::specs::HeaderReading::header_in))]
    fn read(bytes: &[u8]) -> Result<Header, HeaderRefusal>
        ensures { result ≡ header_in bytes.now }
    {
        if bytes.len() != HEADER_LEN {
            return Err(HeaderRefusal::Length);
        }
        if !bytes.starts_with(b"HSB1") {
            return Err(HeaderRefusal::Magic);
        }
        let view = u64_at(bytes, 4);
        let parent_view = u64_at(bytes, 12);
        if !(parent_view < view || view == 0 && parent_view == 0) {
            return Err(HeaderRefusal::ViewOrder);
        }
        Ok(Header {
            view,
            parent_view,
            parent: array_at(bytes, 20),
            payload: array_at(bytes, 52),
        })
    }

    /// The 84 bytes of the header.
    #[tactic(auto, unfolding(crate::specs::Headers::header_text))]
    pub fn to_bytes(&self) -> [u8; HEADER_LEN]
        ensures text { result ≡ header_text self.now }
        ensures is_header { IsHeader self.now }
    {
        let mut bytes = [0; HEADER_LEN];
        put(&mut bytes, 0, b"HSB1");
        put(&mut bytes, 4, &self.view.to_be_bytes());
        put(&mut bytes, 12, &self.parent_view.to_be_bytes());
        put(&mut bytes, 20, &self.parent);
        put(&mut bytes, 52, &self.payload);
        bytes
    }

    /// The id of the block.
    #[tactic(auto, unfolding(crate::specs::Headers::header_id))]
    pub fn id(&self) -> Id
        ensures { result ≡ header_id self.now }
    {
        let mut hasher = Sha256::new();
        hasher.update(self.to_bytes());
        hasher.finalize()
    }

    /// Whether the block names this header as its parent, by id and view.
    pub fn names(&self, parent: &Header) -> bool
        ensures { IsTrue result ↔ NamesParent self.now parent.now }
    {
        self.parent_view == parent.view && self.parent == parent.id()
    }
}

/// A header beside its id, made by `NamedHeader::of` alone, so that the id is hashed once. Contracts
/// see the header.
#[derive(Clone, Copy, Debug, PartialEq, Eq)]
pub struct NamedHeader {
    header: Header,
    id: Id,
}

impl Model for NamedHeader {
    ghost use Rattle.std.specs.Prelude.{◌≡◌};
    ghost use Rattle.blocks.specs.Headers.{Header as HeaderValue, header_id};

    ghost Value = { HeaderValue };

    ghost view = { λ n. n.header };

    ghost inverse = { λ h. record { header = h; id = header_id h } };

    ghost invariant = { λ n. n.id ≡ header_id n.header };
}

impl NamedHeader {
    /// The header with its id.
    pub fn of(header: Header) -> NamedHeader
        ensures { result ≡ header }
    {
        NamedHeader {
            id: header.id(),
            header,
        }
    }

    /// The header.
    pub fn header(&self) -> &Header
        ensures { result.now ≡ self.now }
    {
        &self.header
    }

    /// Its id.
    pub fn id(&self) -> &Id
        ensures { result.now ≡ header_id self.now }
    {
        &self.id
    }
}
