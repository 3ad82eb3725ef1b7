//! What a revision printed.

ghost use Rattle.std.specs.Prelude.{◌≡◌, ◌++◌, ◌∷◌, [], IfOk, OnOk};
ghost use Rattle.revision_data.specs.Pieces.{all_bytes};

use std::alloc::{AllocError, Global};
use std::marker::Model;
use std::mem;
use std::rc::Rc;

/// Bytes that never change, which several texts may have.
#[derive(Drop)]
struct Piece {
    bytes: Rc<Vec<u8>>,
}

impl Model for Piece {
    ghost use Rattle.std.specs.Prelude.{List, ℕ};

    ghost Value = { List ℕ };

    ghost view = { λ p. p.bytes.value.items };
}

impl Piece {
    /// These bytes, which are moved and not copied.
    fn new(alloc: Global, bytes: Vec<u8>) -> Result<Piece, AllocError>
        ensures { IfOk result (λ p. p ≡ bytes.items) }
    {
        Ok(Piece {
            bytes: Rc::new(alloc, bytes)?,
        })
    }

    /// The same bytes, which are shared and not copied.
    fn share(&self) -> Result<Piece, AllocError>
        ensures { IfOk result (λ p. p ≡ self.now) }
    {
        Ok(Piece {
            bytes: self.bytes.clone()?,
        })
    }

    /// Its bytes.
    fn bytes(&self) -> &[u8]
        ensures { result.now ≡ self.now }
    {
        self.bytes.as_slice()
    }
}

/// What a revision printed. Contracts see its bytes.
///
/// They stand in pieces that never change, which the texts of other revisions may share, and behind
/// these in a last one, to which prints append.
#[derive(Drop)]
pub struct Text {
    pieces: Vec<Piece>,
    last: Vec<u8>,
}

impl Model for Text {
    ghost use Rattle.std.specs.Prelude.{List, ℕ, ◌++◌};
    ghost use Rattle.revision_data.specs.Pieces.{all_bytes};

    ghost Value = { List ℕ };

    ghost view = { λ t. all_bytes t.pieces.items ++ t.last.items };
}

/// The last piece becomes one of those that never change. Its bytes are moved.
#[tactic(auto, using(crate::proofs::Texts::one_more))]
fn close_last(alloc: Global, pieces: &mut Vec<Piece>, last: &mut Vec<u8>) -> Result<(), AllocError>
    ensures pieces { OnOk result
        (all_bytes pieces.new.items ≡ all_bytes pieces.old.items ++ last.old.items) }
    ensures last { OnOk result (last.new.items ≡ []) }
{
    if last.is_empty() {
        return Ok(());
    }
    let bytes = mem::replace(last, Vec::new(alloc));
    pieces.push(Piece::new(alloc, bytes)?)?;
    Ok(())
}

/// Appends other pieces, which are shared.
fn share_pieces(pieces: &mut Vec<Piece>, others: &[Piece]) -> Result<(), AllocError>
    ensures { OnOk result (pieces.new.items ≡ pieces.old.items ++ others.now) }
{
    for piece in others {
        pieces.push(piece.share()?)?;
    }
    Ok(())
}

/// Appends the bytes of these pieces.
fn append_pieces(bytes: &mut Vec<u8>, pieces: &[Piece]) -> Result<(), AllocError>
    ensures { OnOk result (bytes.new.items ≡ bytes.old.items ++ all_bytes pieces.now) }
{
    for piece in pieces {
        bytes.extend_from_slice(piece.bytes())?;
    }
    Ok(())
}

impl Text {
    /// Nothing.
    pub fn new(alloc: Global) -> Text
        ensures { result ≡ [] }
    {
        Text {
            pieces: Vec::new(alloc),
            last: Vec::new(alloc),
        }
    }

    /// These bytes, which are moved and not copied, in a piece that never changes.
    pub fn of(alloc: Global, bytes: Vec<u8>) -> Result<Text, AllocError>
        ensures { IfOk result (λ t. t ≡ bytes.items) }
    {
        let mut pieces = Vec::new(alloc);
        pieces.push(Piece::new(alloc, bytes)?)?;
        Ok(Text {
            pieces,
            last: Vec::new(alloc),
        })
    }

    /// Appends a byte.
    pub fn push(&mut self, byte: u8) -> Result<(), AllocError>
        ensures { OnOk result (self.new ≡ self.old ++ byte ∷ []) }
    {
        self.last.push(byte)?;
        Ok(())
    }

    /// Appends bytes, which are copied.
    pub fn append(&mut self, bytes: &[u8]) -> Result<(), AllocError>
        ensures { OnOk result (self.new ≡ self.old ++ bytes.now) }
    {
        self.last.extend_from_slice(bytes)
    }

    /// Appends another text. Its pieces that never change are shared; what stands in its last piece
    /// is copied.
    pub fn append_text(&mut self, alloc: Global, other: &Text) -> Result<(), AllocError>
        ensures { OnOk result (self.new ≡ self.old ++ other.now) }
    {
        if other.pieces.is_empty() {
            return self.append(&other.last);
        }
        close_last(alloc, &mut self.pieces, &mut self.last)?;
        share_pieces(&mut self.pieces, &other.pieces)?;
        self.last.extend_from_slice(&other.last)
    }

    /// The last piece becomes one that never changes, so that another text can share it.
    pub fn close(&mut self, alloc: Global) -> Result<(), AllocError>
        ensures { OnOk result (self.new ≡ self.old) }
    {
        close_last(alloc, &mut self.pieces, &mut self.last)
    }

    /// Its bytes in one piece.
    pub fn to_vec(&self, alloc: Global) -> Result<Vec<u8>, AllocError>
        ensures { IfOk result (λ bytes. bytes.items ≡ self.now) }
    {
        let mut bytes = Vec::new(alloc);
        append_pieces(&mut bytes, &self.pieces)?;
        bytes.extend_from_slice(&self.last)?;
        Ok(bytes)
    }

    /// An equal text, which shares the pieces that never change.
    pub fn copy(&self, alloc: Global) -> Result<Text, AllocError>
        ensures { IfOk result (λ t. t ≡ self.now) }
    {
        let mut pieces = Vec::with_capacity(alloc, self.pieces.len())?;
        share_pieces(&mut pieces, &self.pieces)?;
        Ok(Text {
            pieces,
            last: Vec::from_slice(alloc, &self.last)?,
        })
    }
}
