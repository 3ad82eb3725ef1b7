//! Named pieces of text, and texts in which they stand.

use crate::fault::CaseFault;
use crate::marked::{behind, field, number_of};
use std::alloc::{AllocError, Global};

#[derive(Drop)]
struct Piece {
    name: String,
    bytes: Vec<u8>,
}

/// Named pieces of text. Of two with one name the later one is meant.
#[derive(Drop)]
pub struct Pieces {
    pieces: Vec<Piece>,
}

/// Appends the bytes of these numbers.
fn put_bytes(out: &mut Vec<u8>, numbers: &str) -> Result<(), CaseFault> {
    for word in numbers.split_whitespace() {
        let byte = word.parse::<u8>().map_err(|_| CaseFault::Malformed)?;
        out.push(byte)?;
    }
    Ok(())
}

/// The character that a letter behind a backslash stands for.
fn character_of(letter: char) -> Option<u8> {
    match letter {
        'n' => Some(b'\n'),
        's' => Some(b' '),
        't' => Some(b'\t'),
        'r' => Some(b'\r'),
        'b' => Some(b'\\'),
        _ => None,
    }
}

/// Appends the character that a letter stands for, and what follows.
fn put_character(out: &mut Vec<u8>, part: &str) -> Result<(), CaseFault> {
    let Some(letter) = part.chars().next() else {
        return Err(CaseFault::Malformed);
    };
    let Some(byte) = character_of(letter) else {
        return Err(CaseFault::Malformed);
    };
    out.push(byte)?;
    for behind in part.as_bytes().iter().skip(1) {
        out.push(*behind)?;
    }
    Ok(())
}

impl Pieces {
    /// No piece yet.
    pub fn new(alloc: Global) -> Pieces {
        Pieces {
            pieces: Vec::new(alloc),
        }
    }

    /// How many there are.
    pub fn count(&self) -> usize {
        self.pieces.len()
    }

    /// Adds a piece.
    pub fn add(&mut self, alloc: Global, name: &str, bytes: Vec<u8>) -> Result<(), CaseFault> {
        let name = String::from_str(alloc, name)?;
        self.pieces.push(Piece { name, bytes })?;
        Ok(())
    }

    /// Adds a number as a piece.
    pub fn add_number(&mut self, alloc: Global, name: &str, number: u64) -> Result<(), CaseFault> {
        let digits = format!(in alloc; "{number}")?;
        let bytes = Vec::from_slice(alloc, digits.as_bytes())?;
        self.add(alloc, name, bytes)
    }

    /// Forgets all but the first so many.
    pub fn keep(&mut self, count: usize) {
        self.pieces.truncate(count);
    }

    /// The latest piece of this name.
    fn find(&self, name: &str) -> Option<&[u8]> {
        for piece in self.pieces.iter().rev() {
            if piece.name.as_str() == name {
                return Some(piece.bytes.as_slice());
            }
        }
        None
    }

    /// Appends the number behind the one that a piece is.
    fn put_next(&self, alloc: Global, out: &mut Vec<u8>, name: &str) -> Result<(), CaseFault> {
        let Some(bytes) = self.find(name) else {
            return Err(CaseFault::Malformed);
        };
        let Ok(digits) = str::from_utf8(bytes) else {
            return Err(CaseFault::Malformed);
        };
        let next = number_of(digits)?.saturating_add(1);
        let digits = format!(in alloc; "{next}")?;
        out.extend_from_slice(digits.as_bytes())?;
        Ok(())
    }

    /// Appends a piece; by `NAME+1` the number behind the one that it is.
    fn put_piece(&self, alloc: Global, out: &mut Vec<u8>, name: &str) -> Result<(), CaseFault> {
        if let Some(number) = name.strip_suffix("+1") {
            return self.put_next(alloc, out, number);
        }
        let Some(bytes) = self.find(name) else {
            return Err(CaseFault::Malformed);
        };
        out.extend_from_slice(bytes)?;
        Ok(())
    }

    /// Appends what a part of a text says that stands behind a backslash.
    fn put_part(&self, alloc: Global, out: &mut Vec<u8>, part: &str) -> Result<(), CaseFault> {
        if let Some(rest) = part.strip_prefix("[") {
            let (name, text) = rest.split_once(']').unwrap_or((rest, ""));
            self.put_piece(alloc, out, name)?;
            out.extend_from_slice(text.as_bytes())?;
            return Ok(());
        }
        if let Some(rest) = part.strip_prefix("<") {
            let (numbers, text) = rest.split_once('>').unwrap_or((rest, ""));
            put_bytes(out, numbers)?;
            out.extend_from_slice(text.as_bytes())?;
            return Ok(());
        }
        put_character(out, part)
    }

    /// Appends what a text says. In it `\[NAME]` is a piece, `\[NAME+1]` the number behind the one
    /// that a piece is, `\<1 2>` are bytes by their numbers, and `\n`, `\s`, `\t`, `\r` and `\b`
    /// are a line feed, a space, a tab, a carriage return and a backslash. Another letter behind a
    /// backslash, a name of no piece and a number of no byte are malformed.
    pub fn put(&self, alloc: Global, out: &mut Vec<u8>, text: &str) -> Result<(), CaseFault> {
        let (first, rest) = text.split_once('\\').unwrap_or((text, ""));
        out.extend_from_slice(first.as_bytes())?;
        if first.len() == text.len() {
            return Ok(());
        }
        for part in rest.split('\\') {
            self.put_part(alloc, out, part)?;
        }
        Ok(())
    }

    /// What a text says.
    pub fn bytes_of(&self, alloc: Global, text: &str) -> Result<Vec<u8>, CaseFault> {
        let mut out = Vec::new(alloc);
        self.put(alloc, &mut out, text)?;
        Ok(out)
    }

    /// What a text says without its first `@`, and how many bytes stand before that: all of them,
    /// where there is no `@`.
    pub fn marked(&self, alloc: Global, text: &str) -> Result<(Vec<u8>, usize), CaseFault> {
        let mut bytes = self.bytes_of(alloc, text)?;
        let before = bytes
            .iter()
            .position(|byte| *byte == b'@')
            .unwrap_or(bytes.len());
        if before < bytes.len() {
            bytes.remove(before);
        }
        Ok((bytes, before))
    }

    /// What a text says, as a text. Bytes that are no UTF-8 are malformed.
    pub fn text_of(&self, alloc: Global, text: &str) -> Result<String, CaseFault> {
        let bytes = self.bytes_of(alloc, text)?;
        match str::from_utf8(bytes.as_slice()) {
            Ok(text) => Ok(String::from_str(alloc, text)?),
            Err(_) => Err(CaseFault::Malformed),
        }
    }

    /// What the lines of a row with this mark say, each with a line end; one that ends in `\c` has
    /// none.
    pub fn lines(&self, alloc: Global, row: &str, mark: &str) -> Result<Vec<u8>, CaseFault> {
        let mut out = Vec::new(alloc);
        for line in row.split('\n') {
            if let Some(text) = behind(line, mark) {
                match text.strip_suffix("\\c") {
                    Some(open) => self.put(alloc, &mut out, open)?,
                    None => {
                        self.put(alloc, &mut out, text)?;
                        out.push(b'\n')?;
                    },
                }
            }
        }
        Ok(out)
    }

    /// What the lines of a row with this mark say, as by `lines`, but without the last byte: a line
    /// end, if the last line does not end in `\c`.
    pub fn body(&self, alloc: Global, row: &str, mark: &str) -> Result<Vec<u8>, CaseFault> {
        let mut out = self.lines(alloc, row, mark)?;
        out.pop();
        Ok(out)
    }

    /// A text so many times, in each of which `n` is how many there were before.
    fn repeated(&mut self, alloc: Global, count: u64, text: &str) -> Result<Vec<u8>, CaseFault> {
        let outer = self.count();
        let mut out = Vec::new(alloc);
        for n in 0..count {
            self.add_number(alloc, "n", n)?;
            self.put(alloc, &mut out, text)?;
            self.keep(outer);
        }
        Ok(out)
    }

    /// Adds the piece of a line `let NAME COUNT TEXT`, of which this stands behind the mark.
    fn add_let(&mut self, alloc: Global, line: &str) -> Result<(), CaseFault> {
        let (name, rest) = line.split_once(' ').unwrap_or((line, ""));
        let (count, text) = rest.split_once(' ').unwrap_or((rest, ""));
        let bytes = self.repeated(alloc, number_of(count)?, text)?;
        self.add(alloc, name, bytes)
    }

    /// Adds the pieces of the lines `let NAME COUNT TEXT` of a row.
    pub fn add_lets(&mut self, alloc: Global, row: &str) -> Result<(), CaseFault> {
        for line in row.split('\n') {
            if let Some(rest) = behind(line, "let") {
                self.add_let(alloc, rest)?;
            }
        }
        Ok(())
    }

    /// Adds the pieces of a row: those of its lines `let`, and by a line `: NAME` what its lines
    /// `|` say.
    pub fn define(&mut self, alloc: Global, row: &str) -> Result<(), CaseFault> {
        self.add_lets(alloc, row)?;
        if let Some(name) = field(row, ":") {
            let text = self.body(alloc, row, "|")?;
            self.add(alloc, name, text)?;
        }
        Ok(())
    }
}
