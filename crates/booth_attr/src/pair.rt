//! An attribute: its name and its value.
ghost use Rattle.std.specs.Prelude.{◌≡◌, ◌+◌, ◌≤◌, ◌++◌, length};
ghost use Rattle.booth_base.specs.declared.buffer.TheConstants.{TEXT_BYTES};
ghost use Rattle.booth_attr.specs.Lists.{line_of};

use booth_base::{AttrValue, Name, TextBuf};

/// The most bytes of a pair's line: a name of 63, a blank, a value of 127, a line end.
pub const LINE_BYTES: usize = 192;

/// A name and its value.
#[derive(Drop)]
pub struct Pair {
    pub name: Name,
    pub value: AttrValue,
}

impl Pair {
    /// Appends `name value` and a line feed; there must be room for it.
    pub fn put_line(&self, into: &mut TextBuf)
        requires room { length into.old + LINE_BYTES ≤ TEXT_BYTES }
        ensures line { into.new ≡ into.old ++ line_of self.now }
        ensures short { length into.new ≤ length into.old + LINE_BYTES }
    {
        into.put(self.name.bytes());
        into.put(b" ");
        into.put(self.value.bytes());
        into.put(b"\n");
    }
}
