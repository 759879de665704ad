//! The elements of a message, one after another.

ghost use Rattle.std.specs.Prelude.{◌≡◌, IfSome};
ghost use Rattle.std.specs.Iterator.{YieldsFirstBy, item_count};
ghost use Rattle.std.specs.Option.{option_map};
ghost use Rattle.layout.specs.Elements.{elements, first_of, seen, rest};

use crate::cursor::{Cursor, HEADER_LEN};
use crate::element::Element;

/// The elements of a message from a place on.
#[derive(Clone, Copy)]
pub struct Elements<'a> {
    cursor: Cursor<'a>,
}

impl<'a> Elements<'a> {
    /// The elements of a message, as far as they are whole.
    pub fn of(message: &'a [u8]) -> Elements<'a>
        ensures { rest result ≡ elements message.now }
    {
        Elements {
            cursor: Cursor::new(message, HEADER_LEN),
        }
    }

    /// The first element with an identifier, which may be any octet.
    pub fn find(&self, id: u8) -> Option<Element<'a>>
        ensures finds { option_map seen result ≡ first_of id (rest self.now) }
        ensures named { IfSome result (λ e. e.id ≡ id) }
    {
        let mut elements = *self;
        Iterator::find(&mut elements, |element| element.id == id)
    }
}

impl<'a> Iterator for Elements<'a> {
    type Item = Element<'a>;

    ghost next_gives = { YieldsFirstBy seen rest };

    ghost remaining = { item_count rest };

    fn next(&mut self) -> Option<Element<'a>> {
        self.cursor.next()?.ok()
    }
}
