//! A cursor over a message, which stops at each element.

ghost use Rattle.std.specs.Prelude.{◌≡◌, ◌<◌, length};
ghost use Rattle.std.specs.Iterator.{at_most};
ghost use Rattle.layout.specs.Elements.{element_at, walk, ahead, found, Steps, steps_left};

use crate::element::Element;
use crate::fault::Fault;

/// The length of a header, and so the place of the first element.
pub(crate) const HEADER_LEN: usize = 4;

/// A place in a message. From there on it comes to each element, or to the fault that ends it.
#[derive(Clone, Copy)]
pub(crate) struct Cursor<'a> {
    message: &'a [u8],
    at: usize,
}

impl<'a> Cursor<'a> {
    /// A cursor at a place where an element may begin.
    pub(crate) fn new(message: &'a [u8], at: usize) -> Cursor<'a>
        ensures { ahead result ≡ walk message.now at }
    {
        Cursor { message, at }
    }

    // The element whose identifier stands at the place.
    fn element(&self) -> Result<Element<'a>, Fault>
        requires { self.now.at < length self.now.message.now }
        ensures { found result ≡ element_at self.now.message.now self.now.at }
    {
        let place = self.at;
        let id = self.message[place];
        let cut_short = Fault::CutShort { place, element: id };
        let (start, len) = match &self.message[place..] {
            [_, len @ 0..=127, ..] => (place + 2, usize::from(*len)),
            [_, high, low, ..] => {
                let len = u16::from_be_bytes([*high - 128, *low]);
                if len < 128 {
                    return Err(Fault::Overlong { place, element: id });
                }
                (place + 3, usize::from(len))
            }
            _ => return Err(cut_short),
        };
        let value = self.message[start..].get(..len).ok_or(cut_short)?;
        Ok(Element {
            id,
            place,
            start,
            value,
        })
    }
}

impl<'a> Iterator for Cursor<'a> {
    type Item = Result<Element<'a>, Fault>;

    ghost next_gives = { λ s r t. Steps (ahead s) r (ahead t) };

    ghost remaining = { λ s. at_most (steps_left (ahead s)) };

    fn next(&mut self) -> Option<Result<Element<'a>, Fault>> {
        if self.at >= self.message.len() {
            return None;
        }
        let step = self.element();
        self.at = match step {
            Ok(element) => element.start + element.value.len(),
            Err(_) => self.message.len(), // nothing comes after a fault
        };
        Some(step)
    }
}
