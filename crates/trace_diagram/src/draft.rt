//! What was read of a trace.

ghost use Rattle.std.specs.Prelude.{◌≡◌, [], IfOk, None, Some, is_some, true};
ghost use Rattle.trace_diagram.specs.Drafts.{Closes, Finishes, IsClosed, IsPartial, Takes};
ghost use Rattle.trace_diagram.specs.Drafts.{TakesBehind, TakesHead, partial_of};

use crate::diagram::{Change, Part, PartEnd, Trace, TraceEvent};
use crate::lines::{read_change, read_end, read_event, read_fuel, read_head, read_quoted};
use rev_num::{Items, Path};
use std::alloc::{AllocError, Global};

/// What was read of a trace behind its first line: whole parts, and the part that is being read.
#[derive(Drop)]
pub(crate) struct Draft {
    parts: Vec<Part>,
    path: Path,
    events: Vec<TraceEvent>,
    end: Option<PartEnd>,
    fuel: Option<u64>,
    written: Vec<Change>,
    text: Vec<u8>,
}

impl Draft {
    /// These parts, and behind them the beginning of that of the revision at this path.
    pub(crate) fn begin(alloc: Global, parts: Vec<Part>, path: Path) -> Draft
        ensures { partial_of result ≡ record {
          parts = parts.items;
          path = path;
          events = [];
          end = None;
          fuel = None;
          written = [];
          text = [];
        } }
    {
        Draft {
            parts,
            path,
            events: Vec::new(alloc),
            end: None,
            fuel: None,
            written: Vec::new(alloc),
            text: Vec::new(alloc),
        }
    }

    /// With one more line, or none where the line can't come.
    pub(crate) fn take(self, alloc: Global, line: &[u8]) -> Result<Option<Draft>, AllocError>
        requires { IsPartial (partial_of self) }
        ensures { IfOk result (Takes line.now (partial_of self)) }
    {
        if self.end.is_none() {
            return self.take_event(alloc, line);
        }
        if self.fuel.is_none() {
            return Ok(self.take_fuel(line));
        }
        self.take_more(alloc, line)
    }

    /// A fork or a join, or the end.
    fn take_event(self, alloc: Global, line: &[u8]) -> Result<Option<Draft>, AllocError>
        requires form { IsPartial (partial_of self) }
        requires stage { self.end ≡ None }
        ensures { IfOk result (Takes line.now (partial_of self)) }
    {
        let mut draft = self;
        if let Some(event) = read_event(alloc, line)? {
            draft.events.push(event)?;
            return Ok(Some(draft));
        }
        match read_end(alloc, line)? {
            Some(end) => {
                draft.end = Some(end);
                Ok(Some(draft))
            }
            None => Ok(None),
        }
    }

    /// The fuel that was left.
    fn take_fuel(self, line: &[u8]) -> Option<Draft>
        requires form { IsPartial (partial_of self) }
        requires ended { is_some self.end ≡ true }
        requires stage { self.fuel ≡ None }
        ensures { Takes line.now (partial_of self) result }
    {
        let mut draft = self;
        match read_fuel(line) {
            Some(fuel) => {
                draft.fuel = Some(fuel);
                Some(draft)
            }
            None => None,
        }
    }

    /// A write, a line that was printed, or the beginning of the next part.
    fn take_more(self, alloc: Global, line: &[u8]) -> Result<Option<Draft>, AllocError>
        requires form { IsPartial (partial_of self) }
        requires closed { IsClosed (partial_of self) }
        ensures { IfOk result (Takes line.now (partial_of self)) }
    {
        if !self.text.is_empty() {
            return self.take_behind(alloc, line);
        }
        match read_change(alloc, line)? {
            Some(change) => {
                let mut draft = self;
                draft.written.push(change)?;
                Ok(Some(draft))
            }
            None => self.take_behind(alloc, line),
        }
    }

    /// A line that was printed, or the beginning of the next part.
    fn take_behind(self, alloc: Global, line: &[u8]) -> Result<Option<Draft>, AllocError>
        requires form { IsPartial (partial_of self) }
        requires closed { IsClosed (partial_of self) }
        ensures { IfOk result (TakesBehind line.now (partial_of self)) }
    {
        match read_quoted(line) {
            Some(text) => {
                let mut draft = self;
                draft.text.extend_from_slice(text)?;
                draft.text.push(b'\n')?;
                Ok(Some(draft))
            }
            None => self.take_head(alloc, line),
        }
    }

    /// The beginning of the next part.
    fn take_head(self, alloc: Global, line: &[u8]) -> Result<Option<Draft>, AllocError>
        requires form { IsPartial (partial_of self) }
        requires closed { IsClosed (partial_of self) }
        ensures { IfOk result (TakesHead line.now (partial_of self)) }
    {
        let Some(path) = read_head(alloc, line)? else {
            return Ok(None);
        };
        if !Path::after_in_post_order(&path, &self.path) {
            return Ok(None);
        }
        match self.close()? {
            Some(parts) => Ok(Some(Draft::begin(alloc, parts, path))),
            None => Ok(None),
        }
    }

    /// The parts, with the one that was read last, if no line of it is wanting.
    fn close(self) -> Result<Option<Vec<Part>>, AllocError>
        ensures { IfOk result (Closes (partial_of self)) }
    {
        let Draft {
            parts,
            path,
            events,
            end,
            fuel,
            written,
            text,
        } = self;
        let mut parts = parts;
        let (Some(end), Some(fuel)) = (end, fuel) else {
            return Ok(None);
        };
        parts.push(Part {
            path,
            events: Items::from_vec(events),
            end,
            fuel,
            written: Items::from_vec(written),
            text: Items::from_vec(text),
        })?;
        Ok(Some(parts))
    }

    /// The trace, if the last part is that of `main` and no line of it is wanting.
    pub(crate) fn finish(self) -> Result<Option<Trace>, AllocError>
        requires { IsPartial (partial_of self) }
        ensures { IfOk result (Finishes (partial_of self)) }
    {
        if !self.path.numbers().is_empty() {
            return Ok(None);
        }
        match self.close()? {
            Some(parts) => Ok(Some(Trace {
                parts: Items::from_vec(parts),
            })),
            None => Ok(None),
        }
    }
}
